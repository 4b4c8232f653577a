// What a record's fields say, by its mark.
ghost use Rattle.std.specs.Prelude.{◌≡◌, ◌+◌};
ghost use Rattle.book.specs.Format.{EB};
ghost use Rattle.book.specs.Index.{field, Lies};
ghost use Rattle.parts.specs.Parts.{Marked, Spanned, is_call, is_functional, span, block_end};

use book::format::{CA, CD, CF, CH, CJ, CK, CL, CN, CQ, CR, CW, CY, E0, E1, EH, EL, EN, ET};
use book::record::Book;

// Where the elements of a record stand: the field of the first, how far it is to the next, how many there are.
#[derive(Clone, Copy)]
pub struct Span {
    pub from: usize,
    pub stride: usize,
    pub count: usize,
}

fn spanning(from: usize, stride: usize, count: usize) -> Span
    ensures { result ≡ span from stride count }
{
    Span {
        from,
        stride,
        count,
    }
}

// Elements as many as field k says.
fn counted(book: &Book, r: u16, from: usize, stride: usize, k: usize) -> Span
    requires { Lies book.now.bytes book.now.index r k }
    ensures { result ≡ span from stride (field book.now.bytes book.now.index r k) }
{
    spanning(from, stride, book.field_at(r, k) as usize)
}

// The elements of a record that is lowered from a row of them. A record's mark is passed beside it, here and above: who asks has read it.
pub fn span_of(book: &Book, r: u16, m: u8) -> Span
    requires { Marked book.now.bytes book.now.index r m }
    ensures { Spanned book.now.bytes book.now.index r m result }
{
    match m {
        ET => counted(book, r, 2, 1, 1),
        EL => counted(book, r, 3, 1, 2),
        E0 => spanning(1, 1, 1),
        E1 => spanning(1, 1, 1),
        EN => counted(book, r, 4, 1, 3),
        EH => counted(book, r, 4, 2, 2),
        CJ => counted(book, r, 4, 1, 3),
        CL => spanning(2, 1, 1),
        CR => spanning(2, 1, 1),
        CD => spanning(2, 1, 1),
        CA => spanning(2, 1, 1),
        CN => spanning(1, 1, 1),
        CF => counted(book, r, 3, 1, 2),
        CQ => spanning(3, 1, 2),
        CY => spanning(3, 1, 2),
        CW => spanning(3, 1, 2),
        CH => counted(book, r, 4, 2, 2),
        _ => spanning(0, 1, 0),
    }
}

// Whether a mark is a call's that has a body: all but the cast's.
pub fn is_call(m: u8) -> bool
    ensures { result ≡ is_call m }
{
    m >= CJ && m != CK
}

// Whether a call's mark names a function.
pub fn is_functional(m: u8) -> bool
    ensures { result ≡ is_functional m }
{
    matches!(m, CF..=CW)
}

// An arm of a match: its pattern and its expression.
#[derive(Clone, Copy)]
pub struct Arm {
    pub pattern: u16,
    pub body: u16,
}

// The arm whose pattern is field k.
pub fn arm_at(book: &Book, r: u16, k: usize) -> Arm
    requires { (Lies book.now.bytes book.now.index r k) × (Lies book.now.bytes book.now.index r (k + 1)) }
    ensures { (result.pattern ≡ field book.now.bytes book.now.index r k) × (result.body ≡ field book.now.bytes book.now.index r (k + 1)) }
{
    let (pattern, body) = book.pair_at(r, k);
    Arm { pattern, body }
}

// The expression that ends a block, if it has one: the book has 65535 where it has none.
pub fn end_of(book: &Book, r: u16) -> Option<u16>
    requires { Marked book.now.bytes book.now.index r EB }
    ensures { result ≡ block_end (field book.now.bytes book.now.index r) }
{
    let n = book.field_at(r, 1) as usize;
    let end = book.field_at(r, 2 + n);
    if end == 65535 {
        return None;
    }
    Some(end)
}
