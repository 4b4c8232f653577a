// CHECK: each declared type against the one its parts give.
#![tactic(auto)]

ghost use Rattle.std.specs.Prelude.{◌*◌, ◌^◌, ◌<◌, ◌≡◌};
ghost use Rattle.book.specs.Valid.{Valid, Tiles};
ghost use Rattle.binders.specs.Memos.{Doubled};
ghost use Rattle.typing.specs.Cycle.{Among, Rows, Stays};
ghost use Rattle.typing.specs.Whole.{in_order, value_at, function_at, checking, after_values, check_of};

use crate::cycle::{Judge, Scope, agree};
use binders::{Binding, doubles};
use book::fault::Refusal;
use book::format::{FUNCTION, VALUE, kind_of};
use book::read::index_book;
use book::record::Book;
use shapes::whole::value_agrees;

pub mod cycle;

// CHECK: how many records there are; or READ's refusal, or the first fault of value records, functions and the root.
pub fn check(book: &[u8]) -> Result<u16, Refusal>
    ensures { result ≡ check_of book.now }
{
    let indexed = index_book(book);
    let n = indexed.answer?;
    let book = Book::new(book, &indexed.index, n);
    records(&book, n).and(Ok(n))
}

// The records of a book that READ accepts: values, then functions, then the root.
fn records(book: &Book, n: u16) -> Result<(), Refusal>
    requires valid { Valid book.now.bytes book.now.index n }
    requires tiles { Tiles book.now.bytes book.now.index n }
    ensures { result ≡ checking book.now.bytes book.now.index n }
{
    values(book, n)?;
    let mut doubled = [false; 4096];
    doubles(book, n, &mut doubled);
    if n <= 512 {
        sized::<8192>(book, n, &doubled)
    } else {
        sized::<524288>(book, n, &doubled)
    }
}

// What follows the values, with a memo of N words that knows no pair yet: the proof counts to no N. All pairs of at most 512 records have
// their bit in a memo of 8192 words, and a larger one is dear to clear; that no bit is missing is a matter of speed alone.
fn sized<const N: usize>(book: &Book, n: u16, doubled: &[bool]) -> Result<(), Refusal>
    requires size { N * 4 < 2 ^ 63 }
    requires valid { Valid book.now.bytes book.now.index n }
    requires tiles { Tiles book.now.bytes book.now.index n }
    requires doubled { Doubled book.now.bytes book.now.index n doubled.now }
    ensures { result ≡ after_values book.now n }
{
    let mut memo = [0u32; N];
    let mut judge = Judge {
        doubled,
        memo: &mut memo,
        vain: [false; 4096],
        bindings: [Binding { pattern: 0, of: 0 }; 65280],
    };
    expressions(book, n, &mut judge)
}

// The functions, and then the root.
fn expressions(book: &Book, n: u16, judge: &mut Judge<'_>) -> Result<(), Refusal>
    requires valid { Valid book.now.bytes book.now.index n }
    requires rows { Rows book.now.bytes book.now.index judge.old }
    ensures { result ≡ after_values book.now n }
{
    functions(book, n, judge)?;
    let root = Scope {
        live: 0,
        base: None,
    };
    judge.expression(book, n - 1, root)
}

// The value records in their order.
fn values(book: &Book, n: u16) -> Result<(), Refusal>
    requires { Valid book.now.bytes book.now.index n }
    ensures { result ≡ in_order (value_at book.now.bytes book.now.index) 0 n }
{
    for r in 0..n {
        value_at(book, r)?;
    }
    Ok(())
}

// Record r, if it is a value.
fn value_at(book: &Book, r: u16) -> Result<(), Refusal>
    requires { Among book.now.bytes book.now.index r }
    ensures { result ≡ value_at book.now.bytes book.now.index r }
{
    if kind_of(book.mark_at(r)) == VALUE {
        agree(value_agrees(book, r), r)
    } else {
        Ok(())
    }
}

// The functions in their order, called or not.
fn functions(book: &Book, n: u16, judge: &mut Judge<'_>) -> Result<(), Refusal>
    requires valid { Valid book.now.bytes book.now.index n }
    requires rows { Rows book.now.bytes book.now.index judge.old }
    ensures { Stays book.now.bytes book.now.index (in_order (function_at book.now.bytes book.now.index) 0 n) 0 judge.old result judge.new }
{
    for r in 0..n {
        function_at(book, r, judge)?;
    }
    Ok(())
}

// Record r, if it is a function.
fn function_at(book: &Book, r: u16, judge: &mut Judge<'_>) -> Result<(), Refusal>
    requires among { Among book.now.bytes book.now.index r }
    requires rows { Rows book.now.bytes book.now.index judge.old }
    ensures { Stays book.now.bytes book.now.index (function_at book.now.bytes book.now.index r) 0 judge.old result judge.new }
{
    if kind_of(book.mark_at(r)) == FUNCTION {
        judge.function(book, r)
    } else {
        Ok(())
    }
}
