// Runs a book on standard input and prints its value, `failed`, or its refusal. The book's length stands before it, two bytes, low
// first; the witness list follows it. The book is lowered without symbols.
#![tactic(auto)]

ghost use Rattle.std.specs.Prelude.{◌≡◌, ◌+◌, ◌≤◌, ◌<◌, IfSome};

use book::word::word;
use cells::table::{LEFT, RIGHT, UNIT, kind_at, left_at, right_at};
use compile::lower;
use console::{print_refusal, read_full};
use run::{Outcome, run};
use std::io;
use std::io::{Read, Write};

// More than a book may have: its length is announced in two bytes.
const BOOK: usize = 65536;

// An entry for each of the 65,536 names that a witness may have: what follows is never read.
const LIST: usize = 131072;

// Room for 65,535 nodes, or cells, of five bytes.
const TABLE: usize = 327675;

// A value's text is cut after so many characters: a value that shares its parts may be wider than the world.
const MOST: usize = 65536;

// Has for each open pair its second part, none where that is written and the pair is to be closed. It is one longer than the text: each
// of its entries has a parenthesis there. A row, since there is no heap; a `Place` counts what of it is in use.
type Pairs = [Option<u16>; 65537];

// Where the text of a value is: its length, with what did not fit; how many pairs are open; the cell that is next, none where one was
// just written whole. No more pairs are open than there are characters, since each has its parenthesis. That the
// length is at most MOST is no field: the last step may pass it.
#[derive(Clone, Copy)]
struct Place {
    len: usize,
    pairs: usize,
    next: Option<u16>,
    ghost nested: { pairs ≤ len },
}

// A character at a place, if it fits.
fn put(text: &mut [u8], at: usize, c: u8) {
    if at < text.len() {
        text[at] = c;
    }
}

// Two characters, and then the cell, or what follows a whole one.
fn put_two(text: &mut [u8], s: Place, a: u8, b: u8, next: Option<u16>) -> Place
    requires { s.len ≤ 65536 }
    ensures { result.len ≡ s.len + 2 }
{
    put(text, s.len, a);
    put(text, s.len + 1, b);
    Place {
        len: s.len + 2,
        pairs: s.pairs,
        next,
    }
}

// Opens a pair: its second part is left to write.
fn open(text: &mut [u8], row: &mut Pairs, s: Place, first: u16, second: u16) -> Place
    requires { s.len ≤ 65536 }
    ensures { result.len ≡ s.len + 1 }
{
    let at = s.pairs;
    put(text, s.len, b'(');
    row[at] = Some(second);
    Place {
        len: s.len + 1,
        pairs: at + 1,
        next: Some(first),
    }
}

// Begins the next cell.
fn begin(cells: &[u8], cell: u16, text: &mut [u8], row: &mut Pairs, s: Place) -> Place
    requires { s.len ≤ 65536 }
    ensures { s.len < result.len }
{
    let part = left_at(cells, cell);
    match kind_at(cells, cell) {
        UNIT => put_two(text, s, b'(', b')', None),
        LEFT => put_two(text, s, b'L', b' ', Some(part)),
        RIGHT => put_two(text, s, b'R', b' ', Some(part)),
        _ => open(text, row, s, part, right_at(cells, cell)),
    }
}

// Goes on in the pair that was opened last: to its second part, or to its end.
fn go_on(text: &mut [u8], row: &mut Pairs, s: Place) -> Place
    requires fits { s.len ≤ 65536 }
    requires is_open { 0 < s.pairs }
    ensures { s.len < result.len }
{
    let at = s.pairs - 1;
    if let Some(second) = row[at].take() {
        return put_two(text, s, b',', b' ', Some(second));
    }
    put(text, s.len, b')');
    Place {
        len: s.len + 1,
        pairs: at,
        next: None,
    }
}

// Writes the text of a cell into room for MOST characters, and answers its length, none where it is cut.
fn spell(cells: &[u8], cell: u16, text: &mut [u8; MOST], row: &mut Pairs) -> Option<usize>
    ensures { IfSome result (λ n. n ≤ 65536) }
{
    let mut s = Place {
        len: 0,
        pairs: 0,
        next: Some(cell),
    };
    // Not a `for`: a step writes one character or two.
    while s.len <= MOST {
        if let Some(next) = s.next {
            s = begin(cells, next, text, row, s);
        } else if 0 < s.pairs {
            s = go_on(text, row, s);
        } else {
            return Some(s.len);
        }
    }
    None
}

fn print_value(out: &mut impl Write, cells: &[u8], cell: u16) -> io::Result<()> {
    let mut text = [0u8; MOST];
    let mut row = [None; 65537];
    out.write_all(b"value\n")?;
    match spell(cells, cell, &mut text, &mut row) {
        Some(n) => {
            out.write_all(&text[..n])?;
            out.write_all(b"\n")
        }
        None => {
            out.write_all(&text)?;
            out.write_all(b" ...\n")
        }
    }
}

fn run_nodes(
    out: &mut impl Write,
    book: &[u8],
    witnesses: &[u8],
    nodes: &[u8],
    count: u16,
) -> io::Result<()> {
    let mut cells = [0u8; TABLE];
    match run(book, witnesses, nodes, count as u32, &mut cells) {
        Ok(Outcome::Value { cell, .. }) => print_value(out, &cells, cell),
        Ok(Outcome::Failed) => out.write_all(b"failed\n"),
        Err(why) => print_refusal(out, why),
    }
}

fn run_book(out: &mut impl Write, book: &[u8], witnesses: &[u8]) -> io::Result<()> {
    let mut nodes = [0u8; TABLE];
    match lower(book, false, &mut nodes) {
        Ok(count) => run_nodes(out, book, witnesses, &nodes, count),
        Err(why) => print_refusal(out, why),
    }
}

// How many bytes are the book, where n of the announced ones came. A book that ends early is not run, even if what came of it is a book
// of its own: it gets a zero byte more if its number of bytes is even. Every record has an even number, so READ refuses it, by CUT at
// the record that is not whole unless an earlier one is at fault.
fn book_size(announced: usize, n: usize) -> usize
    requires { n ≤ announced }
    ensures { result ≤ announced }
{
    if n < announced { n + 1 - n % 2 } else { n }
}

// Reads the book, into a part as long as it is announced, and the witness list, and runs them.
fn run_input(
    input: &mut impl Read,
    out: &mut impl Write,
    book: &mut [u8],
    list: &mut [u8],
) -> io::Result<()> {
    let n = read_full(input, book)?;
    let w = read_full(input, list)?;
    let size = book_size(book.len(), n);
    run_book(out, &book[..size], &list[..w])
}

fn main(rt: HostRuntime) -> io::Result<()> {
    let mut input = rt.stdin();
    let mut head = [0u8; 2];
    let mut buffer = [0u8; BOOK];
    let mut list = [0u8; LIST];
    read_full(&mut input, &mut head)?;
    let announced = word(&head, 0) as usize;
    run_input(
        &mut input,
        &mut rt.stdout(),
        &mut buffer[..announced],
        &mut list,
    )
}
