// Patterns beside types. Patterns share their parts, so that a pattern may have more places than could ever be visited: no record is
// entered again for what is known of it.
#![tactic(auto)]

ghost use Rattle.std.specs.Prelude.{[], ◌∷◌, ◌≡◌, false, ◌+◌, ◌<◌, length, replicate};
ghost use Rattle.std.proofs.Math.Option.{none};
ghost use Rattle.book.specs.Format.{TYPE, PATTERN, FUNCTION, PT};
ghost use Rattle.book.specs.Index.{kind};
ghost use Rattle.book.specs.Valid.{Valid};
ghost use Rattle.book.specs.Tree.{fun_of};
ghost use Rattle.pattern.specs.Find.{find};
ghost use Rattle.book.specs.Books.{StandsIn, mark_in};
ghost use Rattle.shapes.specs.Views.{GivesIn};
ghost use Rattle.binders.specs.Binders.{type_for, scope_in};
ghost use Rattle.binders.specs.Memos.{BindsIn, KnownIn, FittedIn, NamelessIn, TalliesIn, MemoIn, SightsIn, pattern_at};
ghost use Rattle.binders.specs.Memos.{width_of, word_of, marked, Marks, Met, Notes, Bears, params_twice, Doubled, Repeats, LiveIn, NewestIn, scope_in_row};

use book::format::{FN, PI, PN, PT, TP};
use book::record::Book;
use shapes::part::{is_unit, place};

// How many words of the memo a pattern has: a bit for each type that there may be, in a small book or in a large one.
fn width_of(length: usize) -> usize
    ensures { result ≡ width_of length }
{
    if length <= 8192 { 16 } else { 128 }
}

// The word of a pair, in a memo of so many words: its end where the pattern has no bit for the type. No Option: its callers
// hold the word against the memo's length in any case, since a pattern may lie beyond it.
fn word_of(p: usize, t: usize, length: usize) -> usize
    requires { p < 65536 }
    ensures { result ≡ word_of length p t }
{
    let width = width_of(length);
    if 32 * width <= t {
        return length;
    }
    p * width + t / 32
}

// Whether a pattern is known to fit a type: a bit for each pair. Of a pair beyond the memo nothing is known.
fn known(p: usize, t: usize, memo: &[u32]) -> bool
    requires { p < 65536 }
    ensures { result ≡ marked memo.now p t }
{
    let at = word_of(p, t, memo.len());
    if memo.len() <= at {
        return false;
    }
    let v = memo[at];
    (v >> (t % 32)) % 2 == 1
}

fn mark(p: usize, t: usize, memo: &mut [u32])
    requires { p < 65536 }
    ensures { Marks memo.old p t memo.new }
{
    if known(p, t, memo) {
        return;
    }
    let at = word_of(p, t, memo.len());
    if memo.len() <= at {
        return;
    }
    let v = memo[at];
    memo[at] = v + (1u32 << (t % 32));
}

// Whether a pattern fits a type. What is found to fit is kept for later questions; what does not fit ends them all.
#[cycle(fitting)]
pub fn fits(book: &Book, p: u16, t: u16, memo: &mut [u32]) -> bool
    requires { (StandsIn book.now p PATTERN) × ((StandsIn book.now t TYPE) × (KnownIn book.now memo.old)) }
    ensures { FittedIn book.now p t result memo.new }
{
    if book.mark_at(p) != PT {
        return true;
    }
    if known(p as usize, t as usize, memo) {
        return true;
    }
    if fits_row(book, p, t, memo) {
        mark(p as usize, t as usize, memo);
        return true;
    }
    false
}

// The same for a row: each element fits the type at its place.
#[cycle(fitting)]
fn fits_row(book: &Book, p: u16, t: u16, memo: &mut [u32]) -> bool
    requires { (StandsIn book.now p PATTERN) × ((mark_in book.now p ≡ PT) × ((StandsIn book.now t TYPE) × (KnownIn book.now memo.old))) }
    ensures { FittedIn book.now p t result memo.new }
{
    let n = book.field_at(p, 0) as u32;
    if n == 0 {
        return is_unit(book, t);
    }
    for k in 0..n {
        let part = book.field_at(p, 1 + (k as usize));
        let Some(s) = place(book, TP, t, n, k) else {
            return false;
        };
        if !fits(book, part, s, memo) {
            return false;
        }
    }
    true
}

// What meeting a pattern's names came to: one was met before, or it has names, all new, or it has none.
#[derive(Clone, Copy)]
pub enum Noted {
    Twice,
    Named,
    Unnamed,
}

// Meets a name with a stamp. A row of names is used again with another stamp, and is not cleared.
fn note(name: u16, met: &mut [u16], stamp: u16) -> Noted
    requires { Met stamp met.old }
    ensures { Notes stamp (name ∷ []) met.old result met.new }
{
    if met[name as usize] == stamp {
        return Noted::Twice;
    }
    met[name as usize] = stamp;
    Noted::Named
}

// Meets the names of a pattern: `nameless` says of each record whether it was found to have none. A record with names that is met
// again leads straight to a name that was met. The two rows are lent side by side: a struct of both would be lent by `&mut`, and each
// promise would say the same of its two fields.
#[cycle(noting)]
fn note_all(book: &Book, p: u16, met: &mut [u16], stamp: u16, nameless: &mut [bool]) -> Noted
    requires { (StandsIn book.now p PATTERN) × ((Met stamp met.old) × (NamelessIn book.now nameless.old)) }
    ensures { TalliesIn book.now p stamp met.old result met.new nameless.new }
{
    if nameless[p as usize] {
        return Noted::Unnamed;
    }
    let mark = book.mark_at(p);
    if mark == PT {
        return note_row(book, p, met, stamp, nameless);
    }
    if mark == PI {
        let name = book.field_at(p, 0);
        return note(name, met, stamp);
    }
    Noted::Unnamed
}

// The same for a row: its elements one after another.
#[cycle(noting)]
fn note_row(book: &Book, p: u16, met: &mut [u16], stamp: u16, nameless: &mut [bool]) -> Noted
    requires { (StandsIn book.now p PATTERN) × ((mark_in book.now p ≡ PT) × ((Met stamp met.old) × (NamelessIn book.now nameless.old))) }
    ensures { TalliesIn book.now p stamp met.old result met.new nameless.new }
{
    let n = book.field_at(p, 0) as usize;
    let mut any = false;
    for k in 0..n {
        let part = book.field_at(p, 1 + k);
        match note_all(book, part, met, stamp, nameless) {
            Noted::Twice => return Noted::Twice,
            Noted::Named => any = true,
            Noted::Unnamed => {}
        }
    }
    if any {
        return Noted::Named;
    }
    nameless[p as usize] = true;
    Noted::Unnamed
}

// The record that has all names of a row: none, the one part of it that bears names, or the row itself.
fn bearer(book: &Book, p: u16, nameless: &[bool]) -> Option<u16>
    requires stands { StandsIn book.now p PATTERN }
    requires mark_is { mark_in book.now p ≡ PT }
    requires nameless { NamelessIn book.now nameless.now }
    ensures { Bears book.now.bytes book.now.index p result }
{
    let n = book.field_at(p, 0) as usize;
    let mut only = None;
    for k in 0..n {
        let part = book.field_at(p, 1 + k);
        if !nameless[part as usize] {
            if only.is_some() {
                return Some(p);
            }
            only = Some(part);
        }
    }
    only
}

// Whether a row has a name twice. Where one part alone bears names, that part's answer is the row's, so that a chain of rows is not
// walked again for each of them. The names are met with a stamp of the row's own.
fn repeats(book: &Book, p: u16, met: &mut [u16], nameless: &mut [bool], doubled: &[bool]) -> bool
    requires stands { StandsIn book.now p PATTERN }
    requires mark_is { mark_in book.now p ≡ PT }
    requires met { Met p met.old }
    requires nameless { NamelessIn book.now nameless.old }
    requires doubled { Doubled book.now.bytes book.now.index p doubled.now }
    ensures { Repeats book.now.bytes book.now.index p result met.new nameless.new }
{
    let Some(s) = bearer(book, p, nameless) else {
        nameless[p as usize] = true;
        return false;
    };
    if s != p {
        return doubled[s as usize];
    }
    match note_all(book, p, met, p + 1, nameless) {
        Noted::Twice => true,
        Noted::Named => false,
        Noted::Unnamed => false,
    }
}

// Whether a function's parameter list has a name twice. The names are met with a stamp of the function's own.
fn params_repeat(book: &Book, f: u16, met: &mut [u16]) -> bool
    requires stands { StandsIn book.now f FUNCTION }
    requires met { Met f met.old }
    ensures { (result ≡ params_twice book.now.bytes book.now.index f) × Met (f + 1) met.new }
{
    let n = book.field_at(f, 1) as usize;
    for k in 0..n {
        let name = book.field_at(f, 2 + 2 * k);
        match note(name, met, f + 1) {
            Noted::Twice => return true,
            Noted::Named => {}
            Noted::Unnamed => {}
        }
    }
    false
}

// Whether record r is a pattern or a function with a name twice. The stamps of the records before it are lower than its own.
fn doubled_at(book: &Book, r: u16, met: &mut [u16], nameless: &mut [bool], doubled: &[bool]) -> bool
    requires stands { StandsIn book.now r (kind book.now.bytes book.now.index r) }
    requires met { Met r met.old }
    requires nameless { NamelessIn book.now nameless.old }
    requires doubled { Doubled book.now.bytes book.now.index r doubled.now }
    ensures { Repeats book.now.bytes book.now.index r result met.new nameless.new }
{
    let m = book.mark_at(r);
    if m == PT {
        return repeats(book, r, met, nameless, doubled);
    }
    if m == FN {
        return params_repeat(book, r, met);
    }
    if m == PN {
        nameless[r as usize] = true;
    }
    false
}

// Marks each of the first n records that is a pattern or a function with a name twice. It is worked out before they are judged, so that
// one row of names serves the whole book. What is found to have no names is known to all patterns.
pub fn doubles(book: &Book, n: u16, doubled: &mut [bool])
    requires valid { Valid book.now.bytes book.now.index n }
    requires doubled_is { doubled.old ≡ replicate 4096 false }
    ensures { Doubled book.now.bytes book.now.index n doubled.new }
{
    let mut met = [0u16; 65536];
    let mut nameless = [false; 4096];
    for r in 0..n {
        if doubled_at(book, r, &mut met, &mut nameless, doubled) {
            doubled[r as usize] = true;
        }
    }
}

// The type of a name in a pattern that fits a type, at its first place from the left. `missing` says of each record whether this
// name was already sought there in vain. Book and name stay two arguments: a struct of them would be made for each name, and its promises
// name both anyway.
#[cycle(sighting)]
fn type_in(book: &Book, p: u16, t: u16, name: u16, missing: &mut [bool]) -> Option<u16>
    requires { (BindsIn book.now p t) × (MemoIn book.now name missing.old) }
    ensures { SightsIn book.now name p t result missing.new }
{
    if missing[p as usize] {
        return None;
    }
    let mark = book.mark_at(p);
    if mark == PT {
        return type_in_row(book, p, t, name, missing);
    }
    if mark == PI && book.field_at(p, 0) == name {
        return Some(t);
    }
    None
}

// Whether a pattern may have a name: it is that name, or a row in which it was not sought in vain. Most elements of a wide row are
// passed so, without the way down to their type.
fn may_have(book: &Book, p: u16, name: u16, missing: &[bool]) -> bool
    requires stands { StandsIn book.now p PATTERN }
    requires memo { MemoIn book.now name missing.now }
    ensures { result ≡ false → find name (pattern_at book.now p) ≡ none }
{
    if missing[p as usize] {
        return false;
    }
    let mark = book.mark_at(p);
    if mark == PI {
        return book.field_at(p, 0) == name;
    }
    mark == PT
}

// The same for a row: its elements one after another, each with the type at its place.
#[cycle(sighting)]
fn type_in_row(book: &Book, p: u16, t: u16, name: u16, missing: &mut [bool]) -> Option<u16>
    requires { (BindsIn book.now p t) × ((mark_in book.now p ≡ PT) × (MemoIn book.now name missing.old)) }
    ensures { SightsIn book.now name p t result missing.new }
{
    let n = book.field_at(p, 0) as u32;
    for k in 0..n {
        let part = book.field_at(p, 1 + (k as usize));
        if may_have(book, part, name, missing) {
            // A row that fits a type has a place there for each element.
            let s = place(book, TP, t, n, k).unwrap();
            let found = type_in(book, part, s, name, missing);
            if found.is_some() {
                return found;
            }
        }
    }
    missing[p as usize] = true;
    None
}

// The type of a function's first parameter of a name.
fn type_of_param(book: &Book, f: u16, name: u16) -> Option<u16>
    requires { StandsIn book.now f FUNCTION }
    ensures { GivesIn book.now (type_for name (scope_in (fun_of book.now.bytes book.now.index f))) result }
{
    let n = book.field_at(f, 1) as usize;
    for k in 0..n {
        if book.field_at(f, 2 + 2 * k) == name {
            return Some(book.field_at(f, 3 + 2 * k));
        }
    }
    None
}

// A live binding: its pattern's record, and its type's.
#[derive(Clone, Copy)]
pub struct Binding {
    pub pattern: u16,
    pub of: u16,
}

// The type of a name in the row of live bindings, from the newest on. One row of what was sought in vain serves them all, since they
// may share their parts. That they are live (`LiveIn`) is a fact of the row and of the book, which are lent apart.
fn newest_type(
    book: &Book,
    bindings: &[Binding],
    base: Option<u16>,
    name: u16,
    missing: &mut [bool],
) -> Option<u16>
    requires live { LiveIn book.now bindings.now base }
    requires missing_length { length missing.old ≡ 4096 }
    ensures { (NewestIn book.now bindings.now base name result) × (length missing.new ≡ 4096) }
{
    missing.fill(false);
    for at in (0..bindings.len()).rev() {
        let binding = bindings[at];
        let found = type_in(book, binding.pattern, binding.of, name, missing);
        if found.is_some() {
            return found;
        }
    }
    None
}

// The type of a name in scope: of its newest binding, or in the base.
pub fn type_for(
    book: &Book,
    bindings: &[Binding],
    base: Option<u16>,
    name: u16,
    missing: &mut [bool],
) -> Option<u16>
    requires live { LiveIn book.now bindings.now base }
    requires missing_length { length missing.old ≡ 4096 }
    ensures { (GivesIn book.now (type_for name (scope_in_row book.now bindings.now base)) result) × (length missing.new ≡ 4096) }
{
    let found = newest_type(book, bindings, base, name, missing);
    if found.is_some() {
        return found;
    }
    let f = base?;
    type_of_param(book, f, name)
}
