// Whether an expression's or a value's declared type is the one that its parts' declared types give: a function a construct.
ghost use Rattle.std.specs.Prelude.{◌≡◌, [], ◌∷◌, ◌+◌, ◌*◌, ◌<◌, ◌≤◌, T};
ghost use Rattle.laws.specs.Table.{among};
ghost use Rattle.simplicity.specs.Types.{product, two, same};
ghost use Rattle.book.specs.Format.{TYPE, VALUE, EXPRESSION, FUNCTION, VP, EC, ET, EL, E0, EN, EB, EM, EH, CJ, CL, CD, CA, CN, CK, CF, CQ, CY, CW, CH, powers};
ghost use Rattle.shapes.specs.Shapes.{products, place_of, is_at, row_type, word_type, all_are, same_all, whole};
ghost use Rattle.book.specs.Books.{StandsIn, LiesIn, mark_in, field_in};
ghost use Rattle.parts.specs.Parts.{MarkedIn};
ghost use Rattle.shapes.specs.Views.{TypeIs, expr_at, type_at};
ghost use Rattle.shapes.specs.Wholes.{DeclaresIn, ElementsIn, Folding, part_at, value_part, element_type, element_types, arguments, takes_at, words_at, value_agrees, result_type, accumulates};

use crate::part::{
    element_of, has_places, is_array, is_bit, is_list, is_unit, is_word, place, side, type_of,
};
use book::format::{
    CA, CD, CF, CH, CJ, CK, CL, CN, CQ, CR, CW, CY, E0, E1, EB, EC, EH, EL, EM, EN, ET, TP, TS, VL,
    VP, VR, VU,
};
use book::record::Book;
use jet::jet_at;
use parts::view::{Span, end_of, span_of};

// The declared type of the expression that field j of a record names.
fn part_type(book: &Book, r: u16, j: usize) -> u16
    requires lies { LiesIn book.now r j }
    requires stands { StandsIn book.now (field_in book.now r j) EXPRESSION }
    ensures { TypeIs book.now result (part_at book.now r j) }
{
    let e = book.field_at(r, j);
    type_of(book, e)
}

// The declared type of element k of a row. That a row's elements are expressions (`ElementsIn`) is a fact of the book, a record and a span,
// which are passed apart.
fn element_type(book: &Book, r: u16, span: Span, k: usize) -> u16
    requires elements { ElementsIn book.now r span }
    requires k_in_range { k < span.count }
    ensures { TypeIs book.now result (element_type book.now r span k) }
{
    part_type(book, r, span.from + span.stride * k)
}

// Whether a type has the type of element k at place k of the row.
fn is_placed(book: &Book, t: u16, r: u16, span: Span, k: usize) -> bool
    requires stands { StandsIn book.now t TYPE }
    requires elements { ElementsIn book.now r span }
    requires k_in_range { k < span.count }
    ensures { result ≡ is_at (place_of products span.count k (type_at book.now t)) (element_type book.now r span k) }
{
    let part = element_type(book, r, span, k);
    place(book, TP, t, span.count as u32, k as u32) == Some(part)
}

// Whether a type is the row of the parts' types.
pub fn is_row(book: &Book, t: u16, r: u16, span: Span) -> bool
    requires stands { StandsIn book.now t TYPE }
    requires elements { ElementsIn book.now r span }
    ensures { result ≡ same (type_at book.now t) (row_type (element_types book.now r span)) }
{
    if span.count == 0 {
        return is_unit(book, t);
    }
    (0..span.count).all(|k| is_placed(book, t, r, span, k))
}

// Whether the parts all have a type.
fn are_all(book: &Book, t: u16, r: u16, span: Span) -> bool
    requires stands { StandsIn book.now t TYPE }
    requires elements { ElementsIn book.now r span }
    ensures { result ≡ all_are (type_at book.now t) (element_types book.now r span) }
{
    (0..span.count).all(|k| element_type(book, r, span, k) == t)
}

// A constant: its value's declared type.
fn constant(book: &Book, r: u16, t: u16) -> bool
    requires { DeclaresIn book.now r EC t }
    ensures { result ≡ whole (expr_at book.now r) }
{
    value_type(book, r, 1) == t
}

// A tuple: the row of its parts.
fn tuple(book: &Book, r: u16, t: u16) -> bool
    requires { DeclaresIn book.now r ET t }
    ensures { result ≡ whole (expr_at book.now r) }
{
    is_row(book, t, r, span_of(book, r, ET))
}

// A list: of what its last block says, which its elements all are.
fn list(book: &Book, r: u16, t: u16) -> bool
    requires { DeclaresIn book.now r EL t }
    ensures { result ≡ whole (expr_at book.now r) }
{
    let span = span_of(book, r, EL);
    let bound = book.field_at(r, 1) as u32;
    match element_of(book, t, bound) {
        Some(element) => { is_list(book, t, bound, element) && are_all(book, element, r, span) }
        None => false,
    }
}

// Left or right of a part: the side k of the declared type is the part's.
fn injection(book: &Book, r: u16, t: u16, k: usize) -> bool
    requires declares { DeclaresIn book.now r (E0 + k) t }
    requires k_in_range { k < 2 }
    ensures { result ≡ whole (expr_at book.now r) }
{
    side(book, TS, t, k) == Some(part_type(book, r, 1))
}

// A variant: the declared type has all the places, and that of the index is the payload's row.
fn variant(book: &Book, r: u16, t: u16) -> bool
    requires { DeclaresIn book.now r EN t }
    ensures { result ≡ whole (expr_at book.now r) }
{
    let span = span_of(book, r, EN);
    let n = book.field_at(r, 2) as u32;
    if !has_places(book, t, n) {
        return false;
    }
    match place(book, TS, t, n, book.field_at(r, 1) as u32) {
        Some(payload) => is_row(book, payload, r, span),
        None => false,
    }
}

// A block: its end's type, or unit where there is none.
fn block(book: &Book, r: u16, t: u16) -> bool
    requires { DeclaresIn book.now r EB t }
    ensures { result ≡ whole (expr_at book.now r) }
{
    match end_of(book, r) {
        Some(end) => type_of(book, end) == t,
        None => is_unit(book, t),
    }
}

// A match of two arms: both are of its type. Its parts are lowered apart, so `span_of` has no row for it.
fn two_arms(book: &Book, r: u16, t: u16) -> bool
    requires { DeclaresIn book.now r EM t }
    ensures { result ≡ whole (expr_at book.now r) }
{
    let span = Span {
        from: 3,
        stride: 2,
        count: 2,
    };
    are_all(book, t, r, span)
}

// An enum's match: all arms are of its type.
fn arms(book: &Book, r: u16, t: u16) -> bool
    requires { DeclaresIn book.now r EH t }
    ensures { result ≡ whole (expr_at book.now r) }
{
    are_all(book, t, r, span_of(book, r, EH))
}

// Whether a type is a carry beside a word of so many bits.
fn is_carried(book: &Book, t: u16, bits: u32) -> bool
    requires stands { StandsIn book.now t TYPE }
    requires among { T (among powers bits) }
    ensures { result ≡ same (type_at book.now t) (product two (word_type bits)) }
{
    if book.mark_at(t) != TP {
        return false;
    }
    is_bit(book, book.field_at(t, 0)) && is_word(book, book.field_at(t, 1), bits)
}

// Whether a type is what a jet gives, by its width: unit, a bit, or a carry beside a word.
fn is_result(book: &Book, t: u16, bits: u32) -> bool
    requires stands { StandsIn book.now t TYPE }
    requires among { T (among (0 ∷ 1 ∷ 9 ∷ []) bits) }
    ensures { result ≡ same (type_at book.now t) (result_type bits) }
{
    match bits {
        0 => is_unit(book, t),
        1 => is_bit(book, t),
        _ => is_carried(book, t, bits - 1),
    }
}

// Whether the parts are all words of so many bits.
fn are_words(book: &Book, r: u16, span: Span, bits: u32) -> bool
    requires elements { ElementsIn book.now r span }
    requires among { T (among powers bits) }
    ensures { result ≡ all_are (word_type bits) (element_types book.now r span) }
{
    (0..span.count).all(|k| is_word(book, element_type(book, r, span, k), bits))
}

// A jet: as many arguments as it takes, which share its input's bits, and its output.
fn jet(book: &Book, r: u16, t: u16) -> bool
    requires { DeclaresIn book.now r CJ t }
    ensures { result ≡ whole (expr_at book.now r) }
{
    let span = span_of(book, r, CJ);
    let jet = jet_at(book.field_at(r, 2) as usize);
    if book.field_at(r, 3) != jet.arguments {
        return false;
    }
    let bits = (jet.input / jet.arguments) as u32;
    are_words(book, r, span, bits) && is_result(book, t, jet.output as u32)
}

// An unwrapped part: the side k of its type is the declared one.
fn unwrap(book: &Book, r: u16, t: u16, k: usize) -> bool
    requires declares { DeclaresIn book.now r (CL + k) t }
    requires k_in_range { k < 2 }
    ensures { result ≡ whole (expr_at book.now r) }
{
    let part = part_type(book, r, 2);
    side(book, TS, part, k) == Some(t)
}

// Debug: its part's type.
fn debug(book: &Book, r: u16, t: u16) -> bool
    requires { DeclaresIn book.now r CD t }
    ensures { result ≡ whole (expr_at book.now r) }
{
    part_type(book, r, 2) == t
}

// Assert: from a bit to unit.
fn assert(book: &Book, r: u16, t: u16) -> bool
    requires { DeclaresIn book.now r CA t }
    ensures { result ≡ whole (expr_at book.now r) }
{
    is_bit(book, part_type(book, r, 2)) && is_unit(book, t)
}

// IsNone: from a sum to a bit.
fn is_none(book: &Book, r: u16, t: u16) -> bool
    requires { DeclaresIn book.now r CN t }
    ensures { result ≡ whole (expr_at book.now r) }
{
    let part = part_type(book, r, 1);
    side(book, TS, part, 0).is_some() && is_bit(book, t)
}

// A cast: its part's type. As Debug, but for the mark and the field, which one function for both would have to be told of as a pair.
fn cast(book: &Book, r: u16, t: u16) -> bool
    requires { DeclaresIn book.now r CK t }
    ensures { result ≡ whole (expr_at book.now r) }
{
    part_type(book, r, 1) == t
}

// Whether argument k of a call is of the type of its function's parameter k, of n.
fn is_taken(book: &Book, r: u16, f: u16, n: usize, k: usize) -> bool
    requires elements { ElementsIn book.now r (arguments n) }
    requires stands { StandsIn book.now f FUNCTION }
    requires n_is { n ≡ field_in book.now f 1 }
    requires k_in_range { k < n }
    ensures { result ≡ same (part_at book.now r (3 + k)) (type_at book.now (field_in book.now f (3 + 2 * k))) }
{
    part_type(book, r, 3 + k) == book.field_at(f, 3 + 2 * k)
}

// Whether the arguments of a call are what its function takes, of as many parameters.
fn are_taken(book: &Book, r: u16, f: u16, n: usize) -> bool
    requires elements { ElementsIn book.now r (arguments n) }
    requires stands { StandsIn book.now f FUNCTION }
    requires n_is { n ≡ field_in book.now f 1 }
    ensures { result ≡ same_all (element_types book.now r (arguments n)) (takes_at book.now.bytes book.now.index f 2 n) }
{
    (0..n).all(|k| is_taken(book, r, f, n, k))
}

// A call: as many arguments as parameters, of their types, and what the function gives.
fn call(book: &Book, r: u16, t: u16) -> bool
    requires { DeclaresIn book.now r CF t }
    ensures { result ≡ whole (expr_at book.now r) }
{
    let f = book.field_at(r, 1);
    let n = book.field_at(r, 2);
    if book.field_at(f, 1) != n {
        return false;
    }
    are_taken(book, r, f, n as usize) && t == book.field_at(f, 0)
}

// Whether a fold over e from a is of type t: its function takes an element and the accumulator and gives the accumulator.
fn is_accumulator(book: &Book, r: u16, f: u16, t: u16) -> bool
    requires { Folding book.now.bytes book.now.index r f t }
    ensures { result ≡ accumulates book.now.bytes book.now.index r f t }
{
    let accumulator = book.field_at(f, 5);
    if part_type(book, r, 4) != accumulator {
        return false;
    }
    t == accumulator && book.field_at(f, 0) == accumulator
}

// A list fold.
fn list_fold(book: &Book, r: u16, t: u16) -> bool
    requires { DeclaresIn book.now r CQ t }
    ensures { result ≡ whole (expr_at book.now r) }
{
    let f = book.field_at(r, 1);
    if book.field_at(f, 1) != 2 {
        return false;
    }
    let bound = book.field_at(r, 2) as u32;
    let list = part_type(book, r, 3);
    is_list(book, list, bound, book.field_at(f, 3)) && is_accumulator(book, r, f, t)
}

// An array fold. One function for both folds would be told the mark, and would have both requirements.
fn array_fold(book: &Book, r: u16, t: u16) -> bool
    requires { DeclaresIn book.now r CY t }
    ensures { result ≡ whole (expr_at book.now r) }
{
    let f = book.field_at(r, 1);
    if book.field_at(f, 1) != 2 {
        return false;
    }
    let size = book.field_at(r, 2) as u32;
    let array = part_type(book, r, 3);
    is_array(book, array, size, book.field_at(f, 3)) && is_accumulator(book, r, f, t)
}

// A loop, whose function takes the accumulator, the context and the counter.
fn for_while(book: &Book, r: u16, t: u16) -> bool
    requires { DeclaresIn book.now r CW t }
    ensures { result ≡ whole (expr_at book.now r) }
{
    let f = book.field_at(r, 1);
    if book.field_at(f, 1) != 3 {
        return false;
    }
    let width = book.field_at(r, 2) as u32;
    let accumulator = book.field_at(f, 3);
    let context = book.field_at(f, 5);
    let counter = book.field_at(f, 7);
    if !is_word(book, counter, width) {
        return false;
    }
    if part_type(book, r, 3) != accumulator {
        return false;
    }
    if part_type(book, r, 4) != context {
        return false;
    }
    side(book, TS, t, 1) == Some(accumulator) && book.field_at(f, 0) == t
}

// Whether expression k of a hash's n is a word of its width.
fn is_hashed(book: &Book, r: u16, n: usize, k: usize) -> bool
    requires marked { MarkedIn book.now r CH }
    requires n_is { n ≡ field_in book.now r 2 }
    requires k_in_range { k < n }
    ensures { result ≡ same (part_at book.now r (4 + 2 * k)) (word_type (field_in book.now r (3 + 2 * k))) }
{
    let bits = book.field_at(r, 3 + 2 * k) as u32;
    is_word(book, part_type(book, r, 4 + 2 * k), bits)
}

// Whether a hash's n expressions are words of their widths.
fn are_hashed(book: &Book, r: u16, n: usize) -> bool
    requires marked { MarkedIn book.now r CH }
    requires n_is { n ≡ field_in book.now r 2 }
    ensures { result ≡ words_at book.now.bytes book.now.index r 3 n }
{
    (0..n).all(|k| is_hashed(book, r, n, k))
}

// A hash: words of their widths, to a word of 256 bits.
fn hash(book: &Book, r: u16, t: u16) -> bool
    requires { DeclaresIn book.now r CH t }
    ensures { result ≡ whole (expr_at book.now r) }
{
    let n = book.field_at(r, 2) as usize;
    are_hashed(book, r, n) && is_word(book, t, 256)
}

// A call, by its mark.
fn call_agrees(book: &Book, r: u16, m: u8, t: u16) -> bool
    requires declares { DeclaresIn book.now r m t }
    requires m_in_range { CJ ≤ m }
    ensures { result ≡ whole (expr_at book.now r) }
{
    match m {
        CJ => jet(book, r, t),
        CL => unwrap(book, r, t, 0),
        CR => unwrap(book, r, t, 1),
        CD => debug(book, r, t),
        CA => assert(book, r, t),
        CN => is_none(book, r, t),
        CK => cast(book, r, t),
        CF => call(book, r, t),
        CQ => list_fold(book, r, t),
        CY => array_fold(book, r, t),
        CW => for_while(book, r, t),
        CH => hash(book, r, t),
        _ => true,
    }
}

// An expression, by its mark. A variable is judged in its scope.
pub fn agrees(book: &Book, r: u16, m: u8) -> bool
    requires { MarkedIn book.now r m }
    ensures { result ≡ whole (expr_at book.now r) }
{
    let t = book.field_at(r, 0);
    if CJ <= m {
        return call_agrees(book, r, m, t);
    }
    match m {
        EC => constant(book, r, t),
        ET => tuple(book, r, t),
        EL => list(book, r, t),
        E0 => injection(book, r, t, 0),
        E1 => injection(book, r, t, 1),
        EN => variant(book, r, t),
        EB => block(book, r, t),
        EM => two_arms(book, r, t),
        EH => arms(book, r, t),
        _ => true,
    }
}

// The declared type of the value that field k of a record names.
fn value_type(book: &Book, r: u16, k: usize) -> u16
    requires lies { LiesIn book.now r k }
    requires stands { StandsIn book.now (field_in book.now r k) VALUE }
    ensures { TypeIs book.now result (value_part book.now r k) }
{
    let v = book.field_at(r, k);
    book.field_at(v, 0)
}

// A value that is a pair.
fn pair_agrees(book: &Book, r: u16, t: u16) -> bool
    requires stands { StandsIn book.now r VALUE }
    requires mark_is { mark_in book.now r ≡ VP }
    requires t_is { t ≡ field_in book.now r 0 }
    ensures { result ≡ value_agrees book.now.bytes book.now.index r }
{
    if book.mark_at(t) != TP {
        return false;
    }
    book.field_at(t, 0) == value_type(book, r, 1) && book.field_at(t, 1) == value_type(book, r, 2)
}

// A value, by its mark.
pub fn value_agrees(book: &Book, r: u16) -> bool
    requires { StandsIn book.now r VALUE }
    ensures { result ≡ value_agrees book.now.bytes book.now.index r }
{
    let t = book.field_at(r, 0);
    match book.mark_at(r) {
        VU => is_unit(book, t),
        VL => side(book, TS, t, 0) == Some(value_type(book, r, 1)),
        VR => side(book, TS, t, 1) == Some(value_type(book, r, 1)),
        _ => pair_agrees(book, r, t),
    }
}
