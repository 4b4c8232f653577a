// Tables of five bytes an entry, and cells that are stored one after another.
#![tactic(auto, using(crate::proofs::Numbers::word_short, crate::proofs::Numbers::left_word, crate::proofs::Numbers::right_word), unfolding(crate::specs::Entries::kind_at))]

ghost use Rattle.std.specs.Prelude.{◌≡◌, ◌<◌, slice_index};
ghost use Rattle.book.specs.Format.{word_at};
ghost use Rattle.cells.specs.Entries.{kind_at, left_at, right_at};
ghost use Rattle.cells.specs.Cells.{store};
ghost use Rattle.cells.specs.Keeping.{Fresh, Keeps};

use book::word::word;
use named::entry::{ENTRY, write_entry};

// The kinds of cells, numbers as they are bytes of the table: document 01, CHECK and the meanings.
pub const UNIT: u8 = 1;

pub const LEFT: u8 = 2;

pub const RIGHT: u8 = 3;

pub const PAIR: u8 = 4;

// The cell that was stored last, how many there are, and whether one did not fit. Once full nothing is stored, so that a jet need not
// ask after each of its cells. With an Option of the cell in its place, and `?`, a run of the loop of width 8 took a fifth longer. It is
// handed on by value beside the cells, and no struct with them, for the same reason.
#[derive(Clone, Copy)]
pub struct Kept {
    pub cell: u16,
    pub used: u16,
    pub full: bool,
}

// The byte at i, or 0 past the end.
fn byte(t: &[u8], i: usize) -> u8
    ensures { result ≡ slice_index t.now i }
{
    t.get(i).copied().unwrap_or(0)
}

// A number that the table ends within: its low byte, or 0. It is read out of line, so that no jump is taken where both bytes are there. The
// machine reads numbers at each turn, and the processor guesses a turn by the jumps that were taken before it: in line, a run of pairs took a
// fifth longer.
#[cold]
#[inline(never)]
fn low_byte(t: &[u8], i: usize) -> u16
    ensures { result ≡ slice_index t.now i }
{
    byte(t, i) as u16
}

// The two bytes at i and after it as a number. Where both are there, one test is enough.
fn pair_at(t: &[u8], i: usize) -> u16
    requires { i < 1000000 }
    ensures { result ≡ word_at t.now i }
{
    if i + 1 < t.len() {
        word(t, i)
    } else {
        low_byte(t, i)
    }
}

pub fn kind_at(t: &[u8], n: u16) -> u8
    ensures { result ≡ kind_at t.now n }
{
    byte(t, ENTRY * (n as usize))
}

pub fn left_at(t: &[u8], n: u16) -> u16
    ensures { result ≡ left_at t.now n }
{
    pair_at(t, ENTRY * (n as usize) + 1)
}

pub fn right_at(t: &[u8], n: u16) -> u16
    ensures { result ≡ right_at t.now n }
{
    pair_at(t, ENTRY * (n as usize) + 3)
}

// With so many cells used, the next one is to be stored.
pub fn from(used: u16) -> Kept
    ensures { Fresh used result }
{
    Kept {
        cell: 0,
        used,
        full: false,
    }
}

// Stores a cell, if there is room for it.
pub fn keep(cells: &mut [u8], p: Kept, kind: u8, a: u16, b: u16) -> Kept
    ensures { Keeps cells.old p (λ n. store n kind a b) result cells.new }
{
    if p.full {
        p
    } else if write_entry(cells, p.used, kind, a, b) {
        Kept {
            cell: p.used,
            used: p.used + 1,
            full: false,
        }
    } else {
        Kept { full: true, ..p }
    }
}
