// Runs LOWER on a stream of vectors, and prints how many there were and which answers were wrong.
// A vector: whether symbols are asked for (one byte), the expected number (one byte), place and count (two bytes each), the lengths
// of the table, of the book and of the nodes (three bytes each), the book, and the nodes, with which the table must begin. What
// follows the counted nodes must be zero. Numbers are low byte first.
#![tactic(auto)]

use book::fault::Numbers;
use compile::lower;
use console::read_full;
use named::entry::ENTRY;
use std::io;
use std::io::Read;
use vectors::{begins_with, fill, is_due, is_zero_from, low_first, replay, size_of};

// No stored vector has a longer table, book or row of nodes: tests/lower_vectors.py sees to it. A full table, of 327,675 bytes, would
// have to be cleared anew for each vector.
const MOST: usize = 8192;

// A head: whether symbols are asked for, the answer that is due, and how long the table, the book and the nodes are.
#[derive(Clone, Copy)]
struct Head {
    symbols: bool,
    due: Numbers,
    table: usize,
    book: usize,
    nodes: usize,
}

impl From<[u8; 15]> for Head {
    fn from(head: [u8; 15]) -> Head {
        Head {
            symbols: head[0] != 0,
            due: Numbers {
                number: head[1],
                place: low_first(head[2], head[3]),
                count: low_first(head[4], head[5]),
            },
            table: size_of(head[6], head[7], head[8]),
            book: size_of(head[9], head[10], head[11]),
            nodes: size_of(head[12], head[13], head[14]),
        }
    }
}

fn is_right(head: Head, book: &[u8], nodes: &[u8], table: &mut [u8]) -> bool {
    fill(table);
    is_due(lower(book, head.symbols, table), head.due)
        && begins_with(table, nodes)
        && is_zero_from(table, ENTRY * (head.due.count as usize))
}

// The next book and nodes, read into all of their parts.
fn is_read_right(
    input: &mut impl Read,
    head: Head,
    book: &mut [u8],
    nodes: &mut [u8],
    table: &mut [u8],
) -> io::Result<bool> {
    let b = read_full(input, book)?;
    let n = read_full(input, nodes)?;
    Ok(is_right(head, &book[..b], &nodes[..n], table))
}

// The next vector. One that has no room is wrong.
fn is_next_right(input: &mut impl Read, head: Head) -> io::Result<bool> {
    let mut table = [0u8; MOST];
    let mut book = [0u8; MOST];
    let mut nodes = [0u8; MOST];
    if MOST < head.table || MOST < head.book || MOST < head.nodes {
        return Ok(false);
    }
    is_read_right(
        input,
        head,
        &mut book[..head.book],
        &mut nodes[..head.nodes],
        &mut table[..head.table],
    )
}

fn main(rt: HostRuntime) -> io::Result<()> {
    replay(
        &mut rt.stdin(),
        &mut rt.stdout(),
        |input, head: Head| is_next_right(input, head),
    )
}
