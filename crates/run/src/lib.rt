// RUN: a table of Simplicity nodes over a table of cells.
#![tactic(auto)]

ghost use Rattle.std.specs.Prelude.{◌≡◌, ◌-◌, ◌≤◌, ◌<◌, length, replicate, []};
ghost use Rattle.cells.specs.Cells.{world};
ghost use Rattle.machine.specs.Run.{DEEP, run};
ghost use Rattle.run.specs.Whole.{ended, result_of, after_read, run_of, table_of};
ghost use Rattle.book.specs.Books.{ValidIn};
ghost use Rattle.run.specs.Calls.{Answered, given_by};
ghost use Rattle.machine.specs.Machine.{Sound, Stopped, over_at};

use crate::initial::{number_values, seed_cells};
use book::fault::{Fault, Refusal};
use book::read::index_book;
use book::record::Book;
use machine::{DEEPEST, Ended, Frame, Halt, Lent, State, Step, drive};
use named::table::clear;
use nodes::check::judge_table;

mod initial;

// How a run comes out: with a value's cell, and how many cells are used; or it fails.
#[derive(Clone, Copy)]
pub enum Outcome {
    Value { cell: u16, count: u16 },
    Failed,
}

// RUN: the last node of a table on the unit, over lent cells. Zeros follow the cells used; after a failure or a refusal all are zero.
pub fn run(
    book: &[u8],
    witnesses: &[u8],
    nodes: &[u8],
    count: u32,
    cells: &mut [u8],
) -> Result<Outcome, Refusal>
    ensures { (result ≡ run_of book.now witnesses.now nodes.now count (length cells.old))
        × (cells.new ≡ table_of book.now witnesses.now nodes.now count (length cells.old)) }
{
    clear(cells);
    let indexed = index_book(book);
    let records = indexed.answer?;
    let book = Book::new(book, &indexed.index, records);
    let call = Call {
        book: &book,
        witnesses,
        nodes,
        count,
    };
    call.run_read(cells)
}

// What a call is given, once its book is read.
#[derive(Clone, Copy)]
pub struct Call<'a> {
    pub book: &'a Book<'a>,
    pub witnesses: &'a [u8],
    pub nodes: &'a [u8],
    pub count: u32,
}

impl Call<'_> {
    // RUN once the book is read, over zero cells.
    fn run_read(&self, cells: &mut [u8]) -> Result<Outcome, Refusal>
        requires valid { ValidIn self.now.book.now }
        requires cells_is { cells.old ≡ replicate (length cells.old) 0 }
        ensures { Answered (after_read (given_by self.now) self.now.count (length cells.old)) (length cells.old) result cells.new }
    {
        match judge_table(self.book, self.nodes, self.count) {
            Ok(()) => self.run_table(cells),
            Err(place) => Err(Refusal {
                fault: Fault::Nodes,
                place,
            }),
        }
    }

    // RUN once the table is checked too: the initial cells, then the last node on cell 0.
    fn run_table(&self, cells: &mut [u8]) -> Result<Outcome, Refusal>
        requires valid { ValidIn self.now.book.now }
        requires cells_is { cells.old ≡ replicate (length cells.old) 0 }
        requires count_in_range { (0 < self.now.count) × (self.now.count ≤ 65535) }
        ensures { Answered (result_of (ended (given_by self.now) self.now.count (length cells.old))) (length cells.old) result cells.new }
    {
        let mut row = [0u16; 4096];
        number_values(self.book, &mut row);
        let p = seed_cells(self.book, &row, cells);
        if p.full {
            clear(cells);
            return Err(Refusal {
                fault: Fault::Cells,
                place: 0,
            });
        }
        let end = self.run_machine(&row, cells, p.used);
        answer_of(cells, end)
    }

    // The machine's end, from the last node on cell 0.
    fn run_machine(&self, row: &[u16], cells: &mut [u8], used: u16) -> Result<State, Halt>
        requires sound { Sound self.now.book.now row.now }
        requires count_in_range { (0 < self.now.count) × (self.now.count ≤ 65535) }
        ensures { Stopped (run DEEP (given_by self.now) (self.now.count - 1) 0 (world used cells.old [])) cells.new result }
    {
        let mut frames = [Frame::Skip; DEEPEST];
        let start = State {
            depth: 0,
            node: (self.count - 1) as u16,
            value: 0,
            used,
            step: Step::Enter,
        };
        let lent = Lent {
            book: self.book,
            witnesses: self.witnesses,
            row,
            nodes: self.nodes,
        };
        drive(&lent, cells, &mut frames, Ok(start))
    }
}

// What a run that ended answers. A failure and a refusal leave no cells.
fn answer_of(cells: &mut [u8], end: Result<State, Halt>) -> Result<Outcome, Refusal>
    ensures { Answered (result_of (over_at cells.old end)) (length cells.old) result cells.new }
{
    match end {
        Ok(s) => Ok(Outcome::Value {
            cell: s.value,
            count: s.used,
        }),
        Err(halt) => {
            clear(cells);
            match halt.end {
                Ended::Failed => Ok(Outcome::Failed),
                Ended::Refused(fault) => Err(Refusal {
                    fault,
                    place: halt.node,
                }),
            }
        }
    }
}
