// What a run is given: records of the book by their kind, and the cells of its values.
ghost use Rattle.std.specs.Prelude.{◌≡◌, get_or};
ghost use Rattle.book.specs.Books.{ValidIn};
ghost use Rattle.book.specs.Text.{text};
ghost use Rattle.nodes.specs.Given.{holds, typed};

use book::format::{VALUE, kind_of};
use book::record::Book;

// Whether r is a record of the book, and of the kind.
pub fn is_of(book: &Book, kind: u8, r: u16) -> bool
    requires { ValidIn book.now }
    ensures { result ≡ holds book.now kind r }
{
    r < book.records() && kind_of(book.mark_at(r)) == kind
}

// Whether r is a value record of the type whose record is t.
pub fn is_typed(book: &Book, r: u16, t: u16) -> bool
    requires { ValidIn book.now }
    ensures { result ≡ typed book.now r t }
{
    is_of(book, VALUE, r) && book.field_at(r, 0) == t
}

// The entry of r in a row of numbers, or 0 past its end.
pub fn entry(row: &[u16], r: u16) -> u16
    ensures { result ≡ get_or row.now r 0 }
{
    row.get(r as usize).copied().unwrap_or(0)
}
