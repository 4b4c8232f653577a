// Types taken apart: READ refuses alike types, so two types are the same exactly if their records are.
ghost use Rattle.std.specs.Prelude.{◌≡◌, T, ◌<◌, ◌≤◌};
ghost use Rattle.array.specs.Split.{top_of};
ghost use Rattle.simplicity.specs.Types.{one, two, same};
ghost use Rattle.book.specs.Format.{TYPE, EXPRESSION, powers};
ghost use Rattle.laws.specs.Table.{among};
ghost use Rattle.shapes.specs.Shapes.{type_is, place_of, array_type, list_type, word_type, element_of, has_places};
ghost use Rattle.book.specs.Books.{StandsIn};
ghost use Rattle.shapes.specs.Views.{TypeIs, GivesIn, expr_at, type_at, sort_of, is_sort, side_is, ListBound, block_type, halved_of};

use array::split;
use book::format::{TP, TS, TU};
use book::record::Book;

// The declared type of an expression.
pub fn type_of(book: &Book, e: u16) -> u16
    requires { StandsIn book.now e EXPRESSION }
    ensures { TypeIs book.now result (type_is (expr_at book.now e)) }
{
    book.field_at(e, 0)
}

// A side of a sum (m is its mark) or of a product: its left for 0, its right for 1.
#[tactic(auto, using(book::proofs::Standing::stands_begins, crate::proofs::Sides::side_nowhere, crate::proofs::Sides::side_lies, crate::proofs::Sides::side_gives))]
pub fn side(book: &Book, m: u8, t: u16, k: usize) -> Option<u16>
    requires stands { StandsIn book.now t TYPE }
    requires sort { T (is_sort m) }
    requires k_in_range { k < 2 }
    ensures { GivesIn book.now (side_is m k (type_at book.now t)) result }
{
    if book.mark_at(t) != m {
        return None;
    }
    Some(book.field_at(t, k))
}

// Place k of n in a balanced tree of sums or of products. The side of a turn is a number, so that there is one look at the mark and no branch,
// and the code is inlined, so that the mark that is asked for is known there: else a match of 256 arms takes CHECK a fifth longer.
#[inline(always)]
pub fn place(book: &Book, m: u8, t: u16, n: u32, k: u32) -> Option<u16>
    requires stands { StandsIn book.now t TYPE }
    requires sort { T (is_sort m) }
    requires k_in_range { k < n }
    requires n_in_range { n ≤ 256 }
    ensures { GivesIn book.now (place_of (sort_of m) n k (type_at book.now t)) result }
{
    let mut at = t;
    let mut count = n;
    let mut left = k;
    // How many turns there are depends on the place, so that no range counts them.
    while 1 < count {
        let half = split(count);
        let right = half <= left;
        at = side(book, m, at, right as usize)?;
        if right {
            count -= half;
            left -= half;
        } else {
            count = half;
        }
    }
    Some(at)
}

// Whether a type is unit.
pub fn is_unit(book: &Book, t: u16) -> bool
    requires { StandsIn book.now t TYPE }
    ensures { result ≡ same (type_at book.now t) one }
{
    book.mark_at(t) == TU
}

// Whether a type is a bit.
pub fn is_bit(book: &Book, t: u16) -> bool
    requires { StandsIn book.now t TYPE }
    ensures { result ≡ same (type_at book.now t) two }
{
    if book.mark_at(t) != TS {
        return false;
    }
    is_unit(book, book.field_at(t, 0)) && is_unit(book, book.field_at(t, 1))
}

// What a type is n of, in balanced pairs: n is a power of two, so both halves of each pair are one type. That it is one is asked of each
// caller, who has it from the book's format: a type for such numbers would be built of it and taken apart at each call.
pub fn halved(book: &Book, t: u16, n: u32) -> Option<u16>
    requires stands { StandsIn book.now t TYPE }
    requires among { T (among powers n) }
    ensures { GivesIn book.now (halved_of (top_of n) (type_at book.now t)) result }
{
    let mut at = t;
    let mut count = n;
    // The count is halved, as the promise has it: a range would need its logarithm.
    while 1 < count {
        let part = side(book, TP, at, 0)?;
        if side(book, TP, at, 1) != Some(part) {
            return None;
        }
        at = part;
        count /= 2;
    }
    Some(at)
}

// Whether a type is a word of so many bits, a power of two.
pub fn is_word(book: &Book, t: u16, bits: u32) -> bool
    requires stands { StandsIn book.now t TYPE }
    requires among { T (among powers bits) }
    ensures { result ≡ same (type_at book.now t) (word_type bits) }
{
    match halved(book, t, bits) {
        Some(bit) => is_bit(book, bit),
        None => false,
    }
}

// Whether a type is n of a type, in a row.
pub fn is_array(book: &Book, t: u16, n: u32, element: u16) -> bool
    requires stands { StandsIn book.now t TYPE }
    requires stands_element { StandsIn book.now element TYPE }
    requires n_in_range { 1 ≤ n }
    requires n_in_range_too { n ≤ 256 }
    ensures { result ≡ same (type_at book.now t) (array_type (type_at book.now element) n) }
{
    (0..n).all(|k| place(book, TP, t, n, k) == Some(element))
}

// Whether a type is a list's block: unit, or n of a type, a power of two.
pub fn is_block(book: &Book, t: u16, n: u32, element: u16) -> bool
    requires stands { StandsIn book.now t TYPE }
    requires stands_element { StandsIn book.now element TYPE }
    requires among { T (among powers n) }
    ensures { result ≡ same (type_at book.now t) (block_type (type_at book.now element) (top_of n)) }
{
    if book.mark_at(t) != TS {
        return false;
    }
    is_unit(book, book.field_at(t, 0)) && halved(book, book.field_at(t, 1), n) == Some(element)
}

// Whether a type is the lists of a bound, of a type.
pub fn is_list(book: &Book, t: u16, bound: u32, element: u16) -> bool
    requires stands { StandsIn book.now t TYPE }
    requires stands_element { StandsIn book.now element TYPE }
    requires list_bound { ListBound bound }
    ensures { result ≡ same (type_at book.now t) (list_type (type_at book.now element) bound) }
{
    let mut at = t;
    let mut half = bound / 2;
    // The half is also what each block has, so that no range says the same.
    while 1 < half {
        if book.mark_at(at) != TP {
            return false;
        }
        if !is_block(book, book.field_at(at, 0), half, element) {
            return false;
        }
        at = book.field_at(at, 1);
        half /= 2;
    }
    is_block(book, at, 1, element)
}

// What a type is the lists of a bound of, if it is that at all: its last block has one element.
pub fn element_of(book: &Book, t: u16, bound: u32) -> Option<u16>
    requires stands { StandsIn book.now t TYPE }
    requires list_bound { ListBound bound }
    ensures { GivesIn book.now (element_of (top_of bound) (type_at book.now t)) result }
{
    let mut at = t;
    let mut half = bound / 2;
    // As in is_list, block by block.
    while 1 < half {
        at = side(book, TP, at, 1)?;
        half /= 2;
    }
    side(book, TS, at, 1)
}

// Whether a type has a place for each of n variants.
pub fn has_places(book: &Book, t: u16, n: u32) -> bool
    requires stands { StandsIn book.now t TYPE }
    requires n_in_range { n ≤ 256 }
    ensures { result ≡ has_places n (type_at book.now t) }
{
    (0..n).all(|k| place(book, TS, t, n, k).is_some())
}
