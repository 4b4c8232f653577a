// Runs RUN on a stream of vectors, and prints how many there were and which answers were wrong.
// A vector: fourteen numbers of four bytes, those of `Head` in their order; the book, the witnesses, the given nodes, the given
// cells, and the places of a jet's bits, if it has any. A table grows from what is given of it: each further entry is the one before,
// its first number more by one if its growth is odd, its second if it is 2 or 3; odd bytes at its end are 165. Numbers are low byte
// first.
#![tactic(auto)]

ghost use Rattle.std.specs.Prelude.{◌+◌, ◌*◌, ◌≤◌, ◌<◌, length};

use book::fault::{Refusal, fault_number};
use book::word::word;
use console::read_full;
use named::entry::ENTRY;
use run::{Outcome, run};
use std::io;
use std::io::Read;
use vectors::{begins_with, fill, is_zero_from, replay};

// No stored vector has a longer part: tests/run_vectors.py sees to it.
const MOST_BOOK: usize = 65536;

const MOST_WITNESSES: usize = 131072;

const MOST_TABLE: usize = 327690;

// A jet stands in its table four times, since a run takes longer to begin than to add two bytes. For each the places of its bits: 16
// nodes, 16 cells, and at most nine cells of the result.
const PLACES: usize = 164;

// What stands before a vector: the answer that is due, the count of nodes; the bytes of the cells, of the book, of the witnesses and of
// the nodes; the bytes given of the nodes and of the expected cells, each with its growth; how many bits the result of a jet has, or 0.
#[derive(Clone, Copy)]
struct Head {
    number: u32,
    place: u32,
    count: u32,
    cell: u32,
    nodes: u32,
    room: usize,
    book: usize,
    witnesses: usize,
    table: usize,
    given_nodes: usize,
    nodes_growth: u32,
    given_cells: usize,
    cells_growth: u32,
    result: usize,
}

// Number k of a head.
fn number_at(head: &[u8; 56], k: usize) -> u32
    requires { k < 14 }
{
    let at = 4 * k;
    u32::from_le_bytes([head[at], head[at + 1], head[at + 2], head[at + 3]])
}

impl From<[u8; 56]> for Head {
    fn from(head: [u8; 56]) -> Head {
        Head {
            number: number_at(&head, 0),
            place: number_at(&head, 1),
            count: number_at(&head, 2),
            cell: number_at(&head, 3),
            nodes: number_at(&head, 4),
            room: number_at(&head, 5) as usize,
            book: number_at(&head, 6) as usize,
            witnesses: number_at(&head, 7) as usize,
            table: number_at(&head, 8) as usize,
            given_nodes: number_at(&head, 9) as usize,
            nodes_growth: number_at(&head, 10),
            given_cells: number_at(&head, 11) as usize,
            cells_growth: number_at(&head, 12),
            result: number_at(&head, 13) as usize,
        }
    }
}

impl Head {
    fn is_value(&self, count: u16, cell: u16) -> bool {
        self.number == 0 && self.count == (count as u32) && self.cell == (cell as u32)
    }

    // Whether an answer is the one that is due. A failure is a success that has no cells.
    fn is_due(&self, answer: Result<Outcome, Refusal>) -> bool {
        match answer {
            Ok(Outcome::Value { cell, count }) => self.is_value(count, cell),
            Ok(Outcome::Failed) => self.is_value(0, 0),
            Err(why) => {
                self.number == (fault_number(why.fault) as u32) && self.place == (why.place as u32)
            }
        }
    }
}

// The number that stands an entry before, and more.
fn put_more(table: &mut [u8], to: usize, more: u8)
    requires to_in_range { 5 ≤ to }
    requires to_fits { to + 1 < length table.old }
{
    let bytes = word(table, to - ENTRY)
        .wrapping_add(more as u16)
        .to_le_bytes();
    table[to] = bytes[0];
    table[to + 1] = bytes[1];
}

// An entry like the one before it, its numbers more by the bits of `growth`.
fn put_next(table: &mut [u8], at: usize, growth: u32)
    requires at_in_range { 5 ≤ at }
    requires at_fits { at + 5 ≤ length table.old }
{
    put_more(table, at + 1, (growth % 2) as u8);
    put_more(table, at + 3, (growth / 2 % 2) as u8);
    table[at] = table[at - ENTRY];
}

// Each entry from a place on is made of the one before it.
fn grow(table: &mut [u8], from: usize, growth: u32)
    requires from_in_range { 5 ≤ from }
    requires from_fits { from ≤ length table.old }
{
    for at in (from..table.len() + 1 - ENTRY).step_by(ENTRY) {
        put_next(table, at, growth);
    }
}

// Reads what is given of a table, and grows it.
fn read_table(
    input: &mut impl Read,
    table: &mut [u8],
    given: usize,
    growth: u32,
) -> io::Result<()> {
    fill(table);
    if table.len() < given {
        return Ok(());
    }
    read_full(input, &mut table[..given])?;
    if ENTRY <= given {
        grow(table, given, growth);
    }
    Ok(())
}

// An entry becomes of this kind, or of the next where n is odd.
fn put_bit(table: &mut [u8], place: u8, kind: u8, n: u32)
    requires { kind < 255 }
{
    let at = ENTRY * (place as usize);
    if at < table.len() {
        table[at] = kind + ((n % 2) as u8);
    }
}

// So do the entries at the places, by the bits of n, low first.
fn put_bits(table: &mut [u8], places: &[u8], kind: u8, n: u32)
    requires { kind < 255 }
{
    let mut rest = n;
    for place in places {
        put_bit(table, *place, kind, rest);
        rest /= 2;
    }
}

// On the bytes of n: add_8 has nine bits, the carry the highest; eq_8 has one.
fn result_of(bits: usize, n: u32) -> u32 {
    let a = n / 256;
    let b = n % 256;
    if bits == 9 { a + b } else { (a == b) as u32 }
}

// The parts of a vector are passed one by one: two fields of a struct that is lent may not be lent at once in what the prover covers.

// RUN is to write every byte, whatever the table held: the cells that are due, and zeros.
fn is_right(
    head: &Head,
    book: &[u8],
    witnesses: &[u8],
    nodes: &[u8],
    due: &[u8],
    cells: &mut [u8],
) -> bool {
    fill(cells);
    head.is_due(run(book, witnesses, nodes, head.nodes, cells))
        && begins_with(cells, due)
        && is_zero_from(cells, due.len())
}

// One of a jet's uses, by the places of its bits: the two bytes of n, and what is due for them.
fn put_use(nodes: &mut [u8], due: &mut [u8], places: &[u8], n: u32)
    requires { 32 ≤ length places.now }
{
    put_bits(nodes, &places[..16], 3, n);
    put_bits(due, &places[16..32], 2, n);
    put_bits(due, &places[32..], 2, result_of(places.len() - 32, n));
}

// All uses of a jet, each with so many places: n and the three numbers after it.
fn put_uses(nodes: &mut [u8], due: &mut [u8], places: &[u8], width: usize, n: u32)
    requires width_in_range { 32 ≤ width }
    requires width_fits { 4 * width ≤ length places.now }
    requires n_in_range { n ≤ 65536 }
{
    put_use(nodes, due, &places[..width], n);
    put_use(nodes, due, &places[width..2 * width], n + 1);
    put_use(nodes, due, &places[2 * width..3 * width], n + 2);
    put_use(nodes, due, &places[3 * width..4 * width], n + 3);
}

// The jet on every two bytes.
fn is_jet_right(
    head: &Head,
    book: &[u8],
    nodes: &mut [u8],
    due: &mut [u8],
    cells: &mut [u8],
    places: &[u8],
    width: usize,
) -> bool
    requires width_in_range { 32 ≤ width }
    requires width_fits { 4 * width ≤ length places.now }
{
    for fourth in 0..16384u32 {
        put_uses(nodes, due, places, width, 4 * fourth);
        if !is_right(head, book, b"", nodes, due, cells) {
            return false;
        }
    }
    true
}

// Reads the places of a jet's bits, and runs it.
fn is_next_jet_right(
    input: &mut impl Read,
    head: &Head,
    book: &[u8],
    nodes: &mut [u8],
    due: &mut [u8],
    cells: &mut [u8],
) -> io::Result<bool> {
    if 9 < head.result {
        return Ok(false);
    }
    let mut places = [0u8; PLACES];
    read_full(input, &mut places)?;
    Ok(is_jet_right(head, book, nodes, due, cells, &places, 32 + head.result))
}

// The rest of a vector, read into all of its parts, and run.
fn is_read_right(
    input: &mut impl Read,
    head: &Head,
    book: &mut [u8],
    witnesses: &mut [u8],
    nodes: &mut [u8],
    due: &mut [u8],
    cells: &mut [u8],
) -> io::Result<bool> {
    read_full(input, book)?;
    read_full(input, witnesses)?;
    read_table(input, nodes, head.given_nodes, head.nodes_growth)?;
    read_table(input, due, head.given_cells, head.cells_growth)?;
    if head.result == 0 {
        return Ok(is_right(head, book, witnesses, nodes, due, cells));
    }
    is_next_jet_right(input, head, book, nodes, due, cells)
}

// The next vector, in room for the parts of any. One that has no room is wrong.
fn is_next_right(
    input: &mut impl Read,
    head: &Head,
    book: &mut [u8],
    witnesses: &mut [u8],
    nodes: &mut [u8],
    due: &mut [u8],
    cells: &mut [u8],
) -> io::Result<bool> {
    let used = ENTRY * (head.count as usize);
    if book.len() < head.book
        || witnesses.len() < head.witnesses
        || nodes.len() < head.table
        || due.len() < used
        || cells.len() < head.room
    {
        return Ok(false);
    }
    is_read_right(
        input,
        head,
        &mut book[..head.book],
        &mut witnesses[..head.witnesses],
        &mut nodes[..head.table],
        &mut due[..used],
        &mut cells[..head.room],
    )
}

fn main(rt: HostRuntime) -> io::Result<()> {
    let mut book = [0u8; MOST_BOOK];
    let mut witnesses = [0u8; MOST_WITNESSES];
    let mut nodes = [0u8; MOST_TABLE];
    let mut due = [0u8; MOST_TABLE];
    let mut cells = [0u8; MOST_TABLE];
    replay(&mut rt.stdin(), &mut rt.stdout(), |input, head: Head| {
        is_next_right(
            input,
            &head,
            &mut book,
            &mut witnesses,
            &mut nodes,
            &mut due,
            &mut cells,
        )
    })
}
