// Runs READ on a stream of vectors, and prints how many there were and which answers were wrong.
// A vector: the expected number (one byte), place and count (two bytes each, low first), the book's
// length (three bytes, low first), and the book.
#![tactic(auto)]

use book::fault::{Numbers, numbers_of};
use book::read::read;
use std::io;
use vectors::replay_books;

fn is_right(book: &[u8], due: Numbers) -> bool {
    numbers_of(read(book)) == due
}

fn main(rt: HostRuntime) -> io::Result<()> {
    replay_books(&mut rt.stdin(), &mut rt.stdout(), is_right)
}
