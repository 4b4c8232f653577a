// The judgement of expressions: parts in lowering order before the whole.
ghost use Rattle.std.specs.Prelude.{◌≡◌, ◌<◌};
ghost use Rattle.book.specs.Format.{TYPE, PATTERN, EXPRESSION, STATEMENT, FUNCTION, EV, EB, SA};
ghost use Rattle.book.specs.Index.{mark};
ghost use Rattle.book.specs.Tree.{type_of, fun_of};
ghost use Rattle.typing.specs.Check.{agree, hold, check_fun};
ghost use Rattle.book.specs.Books.{StandsIn};
ghost use Rattle.parts.specs.Parts.{MarkedIn};
ghost use Rattle.typing.specs.Cycle.{Rows, Stays, ArmAt, ArmsAt, Places, parts_of, row_of, match_of, arm_of, statement_of, block_of, live_after};
ghost use Rattle.typing.specs.Cycle.{ScopedIn, Judgeable, Judges, BoundIn, StatedIn, checked, all_arms};

use binders::{Binding, fits, type_for};
use book::fault::{Fault, Refusal};
use book::format::{CK, EB, EH, EM, EV, SA, TS};
use book::record::Book;
use parts::view::{end_of, span_of};
use shapes::part::{has_places, is_unit, place, type_of};
use shapes::whole::agrees;

// What judgements work on: `doubled` says which patterns and functions have a name twice, `memo` which patterns are known to fit which
// types, `vain` serves a name's search, and `bindings` has the live bindings, with room for 256 of them at each depth: a row, since there
// is no heap, of which a `Scope` says how many are live. The book is no field: a judge is lent by `&mut`, and each promise would have to
// add that the book in it stays.
#[derive(Drop)]
pub struct Judge<'a> {
    pub doubled: &'a [bool],
    pub memo: &'a mut [u32],
    pub vain: [bool; 4096],
    pub bindings: [Binding; 65280],
}

// Where a judgement is made: so many bindings are live, behind the base: a function, or none.
#[derive(Clone, Copy)]
pub struct Scope {
    pub live: usize,
    pub base: Option<u16>,
}

// A rule that holds, or a refusal at a record.
fn hold(holds: bool, fault: Fault, r: u16) -> Result<(), Refusal>
    ensures { result ≡ hold holds fault r }
{
    if holds {
        Ok(())
    } else {
        Err(Refusal { fault, place: r })
    }
}

// TYPE at a record, unless its types agree.
pub fn agree(holds: bool, r: u16) -> Result<(), Refusal>
    ensures { result ≡ agree holds r }
{
    hold(holds, Fault::Ty, r)
}

// How many bindings are live after statement s.
fn entered(book: &Book, s: u16, live: usize) -> usize
    requires stands { StandsIn book.now s STATEMENT }
    requires live_in_range { live < 65280 }
    ensures { result ≡ live_after book.now.bytes book.now.index s live }
{
    if book.mark_at(s) == SA {
        live + 1
    } else {
        live
    }
}

impl Judge<'_> {
    // A variable: its name's type is the declared one.
    fn variable(&mut self, book: &Book, r: u16, scope: Scope) -> Result<(), Refusal>
        requires marked { MarkedIn book.now r EV }
        requires scoped { ScopedIn book.now self.old scope }
        ensures { Judges book.now (checked book.now r) scope self.old result self.new }
    {
        let name = book.field_at(r, 1);
        let Some(found) = type_for(
            book,
            &self.bindings[..scope.live],
            scope.base,
            name,
            &mut self.vain,
        ) else {
            return Err(Refusal {
                fault: Fault::Undefined,
                place: r,
            });
        };
        agree(book.field_at(r, 0) == found, r)
    }

    // A pattern where its binding is made, at record r: it fits, and has no name twice. It becomes the newest binding.
    fn bind(&mut self, book: &Book, r: u16, p: u16, t: u16, scope: Scope) -> Result<(), Refusal>
        requires stands { StandsIn book.now p PATTERN }
        requires stands_t { StandsIn book.now t TYPE }
        requires scoped { ScopedIn book.now self.old scope }
        requires live_in_range { scope.live < 65280 }
        ensures { BoundIn book.now r p t scope self.old result self.new }
    {
        agree(fits(book, p, t, self.memo), r)?;
        hold(!self.doubled[p as usize], Fault::Name, r)?;
        self.bindings[scope.live] = Binding { pattern: p, of: t };
        Ok(())
    }

    // An expression, where so many bindings are live: its parts, and then the whole. A variable has no parts.
    #[cycle(checking)]
    pub fn expression(&mut self, book: &Book, r: u16, scope: Scope) -> Result<(), Refusal>
        requires { (StandsIn book.now r EXPRESSION) × (Judgeable book.now r self.old scope) }
        ensures { Judges book.now (checked book.now r) scope self.old result self.new }
    {
        let m = book.mark_at(r);
        if m == EV {
            return self.variable(book, r, scope);
        }
        self.parts(book, r, m, scope)?;
        agree(agrees(book, r, m), r)
    }

    // The parts of an expression, by its mark.
    #[cycle(checking)]
    fn parts(&mut self, book: &Book, r: u16, m: u8, scope: Scope) -> Result<(), Refusal>
        requires { (MarkedIn book.now r m) × ((m ≡ EV → ⊥) × (Judgeable book.now r self.old scope)) }
        ensures { Judges book.now (parts_of book.now.bytes book.now.index r m) scope self.old result self.new }
    {
        match m {
            EB => self.block(book, r, scope),
            EM => self.matching(book, r, 2, 2, scope),
            EH => {
                let n = book.field_at(r, 2) as usize;
                self.matching(book, r, 3, n, scope)
            }
            CK => {
                let e = book.field_at(r, 1);
                self.expression(book, e, scope)
            }
            _ => self.row(book, r, m, scope),
        }
    }

    // The elements of a record's row.
    #[cycle(checking)]
    fn row(&mut self, book: &Book, r: u16, m: u8, scope: Scope) -> Result<(), Refusal>
        requires { (MarkedIn book.now r m) × (Judgeable book.now r self.old scope) }
        ensures { Judges book.now (row_of book.now.bytes book.now.index r m) scope self.old result self.new }
    {
        let span = span_of(book, r, m);
        for k in 0..span.count {
            let e = book.field_at(r, span.from + span.stride * k);
            self.expression(book, e, scope)?;
        }
        Ok(())
    }

    // A match of n arms, the first of whose patterns is field `from`: the scrutinee's type has those arms; the arms; the scrutinee.
    #[cycle(checking)]
    fn matching(
        &mut self,
        book: &Book,
        r: u16,
        from: usize,
        n: usize,
        scope: Scope,
    ) -> Result<(), Refusal>
        requires { (ArmsAt book.now.bytes book.now.index r from n) × (Judgeable book.now r self.old scope) }
        ensures { Judges book.now (match_of book.now.bytes book.now.index r from n) scope self.old result self.new }
    {
        let e = book.field_at(r, 1);
        let t = type_of(book, e);
        agree(has_places(book, t, n as u32), r)?;
        self.arms(book, r, from, n, t, scope)?;
        self.expression(book, e, scope)
    }

    // The arms of a match on the type t.
    #[cycle(checking)]
    fn arms(
        &mut self,
        book: &Book,
        r: u16,
        from: usize,
        n: usize,
        t: u16,
        scope: Scope,
    ) -> Result<(), Refusal>
        requires { (ArmsAt book.now.bytes book.now.index r from n) × ((Places book.now.bytes book.now.index t n) × (Judgeable book.now r self.old scope)) }
        ensures { Judges book.now (all_arms book.now r from n t) scope self.old result self.new }
    {
        for k in 0..n {
            // The type has a place for each arm.
            let s = place(book, TS, t, n as u32, k as u32).unwrap();
            self.arm(book, r, from + 2 * k, s, scope)?;
        }
        Ok(())
    }

    // The arm whose pattern is field j, of the type s: its expression, where its pattern is bound.
    #[cycle(checking)]
    fn arm(&mut self, book: &Book, r: u16, j: usize, s: u16, scope: Scope) -> Result<(), Refusal>
        requires { (ArmAt book.now.bytes book.now.index r j) × ((StandsIn book.now s TYPE) × (Judgeable book.now r self.old scope)) }
        ensures { Judges book.now (arm_of book.now.bytes book.now.index r j (type_of book.now.bytes book.now.index s)) scope self.old result self.new }
    {
        let p = book.field_at(r, j);
        let e = book.field_at(r, j + 1);
        self.bind(book, r, p, s, scope)?;
        let inner = Scope {
            live: scope.live + 1,
            ..scope
        };
        self.expression(book, e, inner)
    }

    // A block: its statements in order, and its end.
    #[cycle(checking)]
    fn block(&mut self, book: &Book, r: u16, scope: Scope) -> Result<(), Refusal>
        requires { (MarkedIn book.now r EB) × (Judgeable book.now r self.old scope) }
        ensures { Judges book.now (block_of book.now.bytes book.now.index r) scope self.old result self.new }
    {
        let n = book.field_at(r, 1) as usize;
        let mut live = scope.live;
        for k in 0..n {
            let s = book.field_at(r, 2 + k);
            self.stmt(book, s, Scope { live, ..scope })?;
            live = entered(book, s, live);
        }
        match end_of(book, r) {
            Some(end) => self.expression(book, end, Scope { live, ..scope }),
            None => Ok(()),
        }
    }

    // A statement: its expression, and then its binding, or that it is of type unit.
    #[cycle(checking)]
    fn stmt(&mut self, book: &Book, s: u16, scope: Scope) -> Result<(), Refusal>
        requires { (StandsIn book.now s STATEMENT) × (Judgeable book.now s self.old scope) }
        ensures { StatedIn book.now s scope self.old result self.new }
    {
        if book.mark_at(s) != SA {
            return self.does(book, s, scope);
        }
        let p = book.field_at(s, 0);
        let e = book.field_at(s, 1);
        self.expression(book, e, scope)?;
        let t = type_of(book, e);
        self.bind(book, s, p, t, scope)
    }

    // A statement that is an expression alone.
    #[cycle(checking)]
    fn does(&mut self, book: &Book, s: u16, scope: Scope) -> Result<(), Refusal>
        requires { (StandsIn book.now s STATEMENT) × ((mark book.now.bytes book.now.index s ≡ SA → ⊥) × (Judgeable book.now s self.old scope)) }
        ensures { Judges book.now (statement_of book.now.bytes book.now.index s) scope self.old result self.new }
    {
        let e = book.field_at(s, 0);
        self.expression(book, e, scope)?;
        let t = type_of(book, e);
        agree(is_unit(book, t), s)
    }

    // A function: its parameter names, its body in a scope of its parameters only, and what it gives.
    pub fn function(&mut self, book: &Book, f: u16) -> Result<(), Refusal>
        requires stands { StandsIn book.now f FUNCTION }
        requires rows { Rows book.now.bytes book.now.index self.old }
        ensures { Stays book.now.bytes book.now.index (check_fun (fun_of book.now.bytes book.now.index f)) 0 self.old result self.new }
    {
        hold(!self.doubled[f as usize], Fault::Name, f)?;
        let n = book.field_at(f, 1) as usize;
        let e = book.field_at(f, 2 + 2 * n);
        self.expression(
            book,
            e,
            Scope {
                live: 0,
                base: Some(f),
            },
        )?;
        agree(type_of(book, e) == book.field_at(f, 0), f)
    }
}
