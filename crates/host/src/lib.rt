// What the plug-in's host calls: two functions on byte slices and numbers, thin over LOWER and RUN.
#![tactic(auto)]

ghost use Rattle.std.specs.Prelude.{◌≡◌, length};
ghost use Rattle.compile.specs.Whole.{lower_of, table_of};
ghost use Rattle.run.specs.Whole.{run_of, table_of as cells_of};
ghost use Rattle.host.specs.Outcome.{asked, outcome_of, ran, ran_of};

use book::fault::{Refusal, fault_number};
use compile::lower;
use run::{Outcome, run};

// What C gets is a struct of numbers, and `probe`, which C links by itself, has one like it: the C interface needs both.
// LOWER's answer in numbers: a success is number 0 at place 0 with its count of nodes; a refusal has count 0.
#[repr(C)]
#[derive(Clone, Copy)]
pub struct LowerOutcome {
    pub number: u32,
    pub place: u32,
    pub count: u32,
}

// LOWER: `symbols` 0 is without debug symbols, any other number with them.
#[unsafe(no_mangle)]
pub extern "C" fn simplicityhl_lower(book: &[u8], symbols: u8, nodes: &mut [u8]) -> LowerOutcome
    ensures { (result ≡ outcome_of (lower_of book.now (asked symbols) (length nodes.old))) × (nodes.new ≡ table_of book.now (asked symbols) (length nodes.old)) }
{
    outcome_of(lower(book, symbols != 0, nodes))
}

fn outcome_of(answer: Result<u16, Refusal>) -> LowerOutcome
    ensures { result ≡ outcome_of answer }
{
    match answer {
        Ok(n) => LowerOutcome {
            number: 0,
            place: 0,
            count: n as u32,
        },
        Err(why) => LowerOutcome {
            number: fault_number(why.fault) as u32,
            place: why.place as u32,
            count: 0,
        },
    }
}

// RUN's answer in numbers: a value has the number of cells and its own cell; FAILED is number 0 with count 0.
#[repr(C)]
#[derive(Clone, Copy)]
pub struct RunOutcome {
    pub number: u32,
    pub place: u32,
    pub count: u32,
    pub cell: u32,
}

// RUN: the last of `count` nodes on the unit.
#[unsafe(no_mangle)]
pub extern "C" fn simplicityhl_run(
    book: &[u8],
    witnesses: &[u8],
    nodes: &[u8],
    count: u32,
    cells: &mut [u8],
) -> RunOutcome
    ensures { (result ≡ ran_of (run_of book.now witnesses.now nodes.now count (length cells.old)))
        × (cells.new ≡ cells_of book.now witnesses.now nodes.now count (length cells.old)) }
{
    ran_of(run(book, witnesses, nodes, count, cells))
}

// A run without a value has no cells.
fn no_value(number: u32, place: u32) -> RunOutcome
    ensures { result ≡ ran number place 0 0 }
{
    RunOutcome {
        number,
        place,
        count: 0,
        cell: 0,
    }
}

fn ran_of(answer: Result<Outcome, Refusal>) -> RunOutcome
    ensures { result ≡ ran_of answer }
{
    match answer {
        Ok(Outcome::Value { cell, count }) => RunOutcome {
            number: 0,
            place: 0,
            count: count as u32,
            cell: cell as u32,
        },
        Ok(Outcome::Failed) => no_value(0, 0),
        Err(why) => no_value(fault_number(why.fault) as u32, why.place as u32),
    }
}
