// The cells before the run: cell 0, which is unit, and one for each value record.
ghost use Rattle.std.specs.Prelude.{◌≡◌, ◌<◌, get_or, replicate, true};
ghost use Rattle.book.specs.Format.{VALUE};
ghost use Rattle.book.specs.Index.{Lies, field};
ghost use Rattle.book.specs.Books.{ValidIn};
ghost use Rattle.book.specs.Text.{text};
ghost use Rattle.nodes.specs.Given.{holds};
ghost use Rattle.run.specs.Whole.{seed, seed_one};
ghost use Rattle.machine.specs.Machine.{Placed, Sound};
ghost use Rattle.run.specs.Calls.{Seeded, Started};

use book::format::{VALUE, VL, VR, VU};
use book::record::Book;
use cells::table::{Kept, LEFT, PAIR, RIGHT, UNIT, from, keep};
use nodes::given::{entry, is_of};

// The cell of each value record into a row of zeros: they are numbered from 1.
pub fn number_values(book: &Book, row: &mut [u16])
    requires valid { ValidIn book.now }
    requires row_is { row.old ≡ replicate 4096 0 }
    ensures { Placed book.now row.new }
{
    let mut next: u16 = 1;
    for r in 0..book.records() {
        if is_of(book, VALUE, r) {
            row[r as usize] = next;
            next += 1;
        }
    }
}

// The cell of the value that field k of record r names.
fn part(book: &Book, row: &[u16], r: u16, k: usize) -> u16
    requires { Lies book.now.bytes book.now.index r k }
    ensures { result ≡ get_or row.now (field book.now.bytes book.now.index r k) 0 }
{
    entry(row, book.field_at(r, k))
}

// The cell of value record r.
fn seed_value(book: &Book, row: &[u16], r: u16, cells: &mut [u8], p: Kept) -> Kept
    requires sound { Sound book.now row.now }
    requires holds_is { holds book.now VALUE r ≡ true }
    ensures { Seeded cells.old p (λ v. seed book.now r) result cells.new }
{
    match book.mark_at(r) {
        VU => keep(cells, p, UNIT, 0, 0),
        VL => keep(cells, p, LEFT, part(book, row, r, 1), 0),
        VR => keep(cells, p, RIGHT, part(book, row, r, 1), 0),
        _ => keep(cells, p, PAIR, part(book, row, r, 1), part(book, row, r, 2)),
    }
}

// The cell of record r, if it is a value.
fn seed_one(book: &Book, row: &[u16], r: u16, cells: &mut [u8], p: Kept) -> Kept
    requires sound { Sound book.now row.now }
    requires r_in_range { r < book.now.records }
    ensures { Seeded cells.old p (seed_one book.now r) result cells.new }
{
    if is_of(book, VALUE, r) {
        seed_value(book, row, r, cells, p)
    } else {
        p
    }
}

// Cell 0 and the values' cells.
pub fn seed_cells(book: &Book, row: &[u16], cells: &mut [u8]) -> Kept
    requires { Sound book.now row.now }
    ensures { Started book.now book.now.records cells.old result cells.new }
{
    let mut p = keep(cells, from(0), UNIT, 0, 0);
    for r in 0..book.records() {
        p = seed_one(book, row, r, cells, p);
    }
    p
}
