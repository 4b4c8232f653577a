// Runs books whose outcome is known through CHECK, LOWER and RUN, without symbols and with them, and prints how many cases there were
// and which ended otherwise.
// A case: the lengths of the book, of the witness list and of the outcome (two bytes each, low first), and these three. An outcome is
// the kinds of a value's parts, 1 unit, 2 left, 3 right, 4 pair: the whole before its parts, left before right. An empty one is a
// failure.
#![tactic(auto)]

ghost use Rattle.std.specs.Prelude.{◌≡◌, ◌+◌, ◌≤◌, ◌<◌, length};

use cells::table::{PAIR, UNIT, kind_at, left_at, right_at};
use compile::lower;
use console::read_full;
use run::{Outcome, run};
use std::io;
use std::io::Read;
use typing::check;
use vectors::{low_first, replay};

// One more than the greatest length of a part.
const MOST: usize = 65536;

// Room for 65,535 nodes, or cells, of five bytes.
const TABLE: usize = 327675;

// A cell that is to wait behind `count` others.
fn put(row: &mut [u16], count: usize, cell: u16) -> usize
    requires { count < length row.old }
    ensures { result ≡ count + 1 }
{
    row[count] = cell;
    count + 1
}

// The parts of a cell of a kind, the left one last.
fn put_parts(row: &mut [u16], count: usize, kind: u8, left: u16, right: u16) -> usize
    requires { count + 1 < length row.old }
    ensures { result ≤ count + 2 }
{
    match kind {
        UNIT => count,
        PAIR => {
            let more = put(row, count, right);
            put(row, more, left)
        }
        _ => put(row, count, left),
    }
}

// Whether a cell has the value that is due. In the row wait the cells that are yet to be compared, the next one last: each kind takes
// one, and puts at most two. A row and a count, since there is no heap.
fn is_value_within(cells: &[u8], cell: u16, due: &[u8], row: &mut [u16]) -> bool
    requires { length due.now < length row.old }
{
    let mut waiting = put(row, 0, cell);
    for kind in due {
        if waiting == 0 {
            return false;
        }
        let at = waiting - 1;
        let x = row[at];
        if kind_at(cells, x) != *kind {
            return false;
        }
        waiting = put_parts(row, at, *kind, left_at(cells, x), right_at(cells, x));
    }
    waiting == 0
}

// The same in room for any that is due.
fn is_value(cells: &[u8], cell: u16, due: &[u8]) -> bool {
    let mut row = [0u16; MOST];
    due.len() < MOST && is_value_within(cells, cell, due, &mut row)
}

// The nodes, run: the outcome is the one that is due.
fn runs_as_due(book: &[u8], witnesses: &[u8], due: &[u8], nodes: &[u8], count: u16) -> bool {
    let mut cells = [0u8; TABLE];
    match run(book, witnesses, nodes, count as u32, &mut cells) {
        Ok(Outcome::Value { cell, .. }) => is_value(&cells, cell, due),
        Ok(Outcome::Failed) => due.is_empty(),
        Err(_) => false,
    }
}

// The same for the book, lowered with or without symbols.
fn ends_as_due(book: &[u8], witnesses: &[u8], due: &[u8], symbols: bool) -> bool {
    let mut nodes = [0u8; TABLE];
    match lower(book, symbols, &mut nodes) {
        Ok(count) => runs_as_due(book, witnesses, due, &nodes, count),
        Err(_) => false,
    }
}

// A case: CHECK passes the book, and both runs end as is due.
fn is_right(book: &[u8], witnesses: &[u8], due: &[u8]) -> bool {
    check(book).is_ok()
        && ends_as_due(book, witnesses, due, false)
        && ends_as_due(book, witnesses, due, true)
}

// The same for the next case, read into all of its parts.
fn is_read_right(
    input: &mut impl Read,
    book: &mut [u8],
    witnesses: &mut [u8],
    due: &mut [u8],
) -> io::Result<bool> {
    read_full(input, book)?;
    read_full(input, witnesses)?;
    read_full(input, due)?;
    Ok(is_right(book, witnesses, due))
}

// What stands before a case: how long its parts are.
#[derive(Clone, Copy)]
struct Head {
    book: u16,
    witnesses: u16,
    due: u16,
}

impl From<[u8; 6]> for Head {
    fn from(head: [u8; 6]) -> Head {
        Head {
            book: low_first(head[0], head[1]),
            witnesses: low_first(head[2], head[3]),
            due: low_first(head[4], head[5]),
        }
    }
}

// The next case, in room for the parts of any.
fn is_next_right(input: &mut impl Read, head: Head) -> io::Result<bool> {
    let mut book = [0u8; MOST];
    let mut witnesses = [0u8; MOST];
    let mut due = [0u8; MOST];
    is_read_right(
        input,
        &mut book[..head.book as usize],
        &mut witnesses[..head.witnesses as usize],
        &mut due[..head.due as usize],
    )
}

fn main(rt: HostRuntime) -> io::Result<()> {
    replay(&mut rt.stdin(), &mut rt.stdout(), |input, head: Head| {
        is_next_right(input, head)
    })
}
