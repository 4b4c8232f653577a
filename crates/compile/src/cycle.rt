// The cycle of lowering: an expression, its row of elements, its block, its call. Every step goes to an earlier record, or at the same
// record one step further.
#![tactic(auto, using(named::proofs::Storing::then, named::proofs::Storing::halt, named::proofs::Storing::handed), unfolding(crate::specs::Cycle::begin_run, crate::specs::Cycle::element_run, crate::specs::Cycle::body_run, crate::specs::Cycle::call_run, crate::specs::Cycle::complete_run))]

ghost use Rattle.std.specs.Prelude.{◌≡◌, true, T, length};
ghost use Rattle.laws.specs.Table.{among};
ghost use Rattle.book.specs.Format.{EXPRESSION, PATTERN, STATEMENT, FUNCTION, EV, EB, EM, EH};
ghost use Rattle.named.specs.Stores.{Done, Fills};
ghost use Rattle.recipes.specs.Calls.{paired};
ghost use Rattle.parts.specs.Parts.{row_marks, is_call};
ghost use Rattle.compile.specs.Lower.{binding_at};
ghost use Rattle.book.specs.Books.{StandsIn};
ghost use Rattle.parts.specs.Parts.{MarkedIn};
ghost use Rattle.compile.specs.Cycle.{ScopeIn, SpanIn, ElementIn, EntersIn};
ghost use Rattle.compile.specs.Cycle.{lowered, element_in, elements_in, row_in, made_in, arm_in, body_in, call_in, function_in, begin_in, last_in};

use book::fault::{Fault, Refusal};
use book::format::{CK, EB, EC, EH, EM, EV, EW, SA};
use book::record::Book;
use named::node::{Nodes, UNIT};
use parts::part::{
    choose_arm, close_all, constant, finish, fold_body, gather, match_arms, plain_body, witness,
    wrap,
};
use parts::view::{Arm, Span, arm_at, end_of, is_call, is_functional, span_of};
use recipes::calls::paired;
use scope_bindings::ScopeBindings;

// What a lowering reads throughout: the book, and whether symbols are asked for.
#[derive(Clone, Copy)]
pub struct Lowering<'a> {
    pub book: &'a Book<'a>,
    pub symbols: bool,
}

impl Lowering<'_> {
    // The expression of record r, in a scope that is lent.
    #[cycle(lowering)]
    pub fn expression(
        &self,
        r: u16,
        scope: &ScopeBindings,
        nodes: &mut Nodes,
    ) -> Result<u16, Refusal>
        requires { (StandsIn self.now.book.now r EXPRESSION) × (ScopeIn self.now scope.now) }
        ensures { Done nodes.old (lowered self.now r scope.now) result nodes.new }
    {
        let m = self.book.mark_at(r);
        match m {
            EC => constant(self.book, r, nodes),
            EW => witness(self.book, r, nodes),
            EV => self.variable(r, scope, nodes),
            EB => self.block(r, scope, nodes),
            EM => self.two_arms(r, scope, nodes),
            CK => {
                let e = self.book.field_at(r, 1);
                self.expression(e, scope, nodes)
            }
            _ => self.from_row(r, m, scope, nodes),
        }
    }

    // A variable: the selector of its name.
    fn variable(&self, r: u16, scope: &ScopeBindings, nodes: &mut Nodes) -> Result<u16, Refusal>
        requires marked { MarkedIn self.now.book.now r EV }
        requires scope_stands { ScopeIn self.now scope.now }
        ensures { Done nodes.old (lowered self.now r scope.now) result nodes.new }
    {
        let name = self.book.field_at(r, 1);
        scope.get(self.book, name, nodes, r)
    }

    // An expression that has a row of elements: the row, and then what its mark makes of it.
    #[cycle(lowering)]
    fn from_row(
        &self,
        r: u16,
        m: u8,
        scope: &ScopeBindings,
        nodes: &mut Nodes,
    ) -> Result<u16, Refusal>
        requires { (MarkedIn self.now.book.now r m) × ((ScopeIn self.now scope.now) × (T (among row_marks m))) }
        ensures { Done nodes.old (lowered self.now r scope.now) result nodes.new }
    {
        let a = self.row(r, m, scope, nodes)?;
        self.complete(r, m, a, scope, nodes)
    }

    // The elements of a record, and what joins them.
    #[cycle(lowering)]
    fn row(&self, r: u16, m: u8, scope: &ScopeBindings, nodes: &mut Nodes) -> Result<u16, Refusal>
        requires { (MarkedIn self.now.book.now r m) × ((ScopeIn self.now scope.now) × (T (among row_marks m))) }
        ensures { Done nodes.old (row_in self.now r m scope.now) result nodes.new }
    {
        let span = span_of(self.book, r, m);
        let mut room = [0u16; 256];
        let roots = &mut room[..span.count];
        self.elements(r, m, span, scope, roots, nodes)?;
        gather(self.book, r, m, roots, nodes)
    }

    // The elements one after another; their nodes go into a row.
    #[cycle(lowering)]
    fn elements(
        &self,
        r: u16,
        m: u8,
        span: Span,
        scope: &ScopeBindings,
        roots: &mut [u16],
        nodes: &mut Nodes,
    ) -> Result<(), Refusal>
        requires { (MarkedIn self.now.book.now r m) × ((ScopeIn self.now scope.now) × ((T (among row_marks m)) × (SpanIn self.now r m span (length roots.old)))) }
        ensures { Fills nodes.old (elements_in self.now r m scope.now span) result roots.new nodes.new }
    {
        for (k, root) in roots.iter_mut().enumerate() {
            let j = span.from + span.stride * k;
            *root = self.element(r, m, j, scope, nodes)?;
        }
        Ok(())
    }

    // The element at field j: an arm of an enum's match has its pattern before it.
    #[cycle(lowering)]
    fn element(
        &self,
        r: u16,
        m: u8,
        j: usize,
        scope: &ScopeBindings,
        nodes: &mut Nodes,
    ) -> Result<u16, Refusal>
        requires { (MarkedIn self.now.book.now r m) × ((ScopeIn self.now scope.now) × (ElementIn self.now r m j)) }
        ensures { Done nodes.old (element_in self.now r m scope.now j) result nodes.new }
    {
        if m == EH {
            let a = arm_at(self.book, r, j - 1);
            self.arm(r, a, scope, nodes)
        } else {
            let e = self.book.field_at(r, j);
            self.expression(e, scope, nodes)
        }
    }

    // An arm of a match: its expression, where its pattern is bound.
    #[cycle(lowering)]
    fn arm(&self, r: u16, a: Arm, scope: &ScopeBindings, nodes: &mut Nodes) -> Result<u16, Refusal>
        requires { (StandsIn self.now.book.now a.pattern PATTERN) × ((StandsIn self.now.book.now a.body EXPRESSION) × (ScopeIn self.now scope.now)) }
        ensures { Done nodes.old (arm_in self.now r a scope.now) result nodes.new }
    {
        if scope.count >= 256 {
            return Err(Refusal {
                fault: Fault::Bindings,
                place: r,
            });
        }
        let inner = scope.insert(a.pattern);
        self.expression(a.body, &inner, nodes)
    }

    // What an expression makes of its row's node: an enum's match, a call, or a wrap.
    #[cycle(lowering)]
    fn complete(
        &self,
        r: u16,
        m: u8,
        inner: u16,
        scope: &ScopeBindings,
        nodes: &mut Nodes,
    ) -> Result<u16, Refusal>
        requires { (MarkedIn self.now.book.now r m) × (ScopeIn self.now scope.now) }
        ensures { Done nodes.old (made_in self.now r m scope.now inner) result nodes.new }
    {
        if m == EH {
            self.choose(r, inner, scope, nodes)
        } else if is_call(m) {
            self.call(r, m, inner, nodes)
        } else {
            wrap(self.book, r, m, inner, nodes)
        }
    }

    // An enum's match, after its tree of cases: the scrutinee, beside the environment.
    #[cycle(lowering)]
    fn choose(
        &self,
        r: u16,
        cases: u16,
        scope: &ScopeBindings,
        nodes: &mut Nodes,
    ) -> Result<u16, Refusal>
        requires { (MarkedIn self.now.book.now r EH) × (ScopeIn self.now scope.now) }
        ensures { Done nodes.old (made_in self.now r EH scope.now cases) result nodes.new }
    {
        let e = self.book.field_at(r, 1);
        let s = self.expression(e, scope, nodes)?;
        choose_arm(r, s, cases, nodes)
    }

    // A call, after its arguments: its body, and then what joins them.
    #[cycle(lowering)]
    fn call(&self, r: u16, m: u8, arguments: u16, nodes: &mut Nodes) -> Result<u16, Refusal>
        requires { (MarkedIn self.now.book.now r m) × (is_call m ≡ true) }
        ensures { Done nodes.old (call_in self.now r m arguments) result nodes.new }
    {
        let b = self.body(r, m, nodes)?;
        finish(self.book, self.symbols, r, m, arguments, b, nodes)
    }

    // The body of a call.
    #[cycle(lowering)]
    fn body(&self, r: u16, m: u8, nodes: &mut Nodes) -> Result<u16, Refusal>
        requires { (MarkedIn self.now.book.now r m) × (is_call m ≡ true) }
        ensures { Done nodes.old (body_in self.now r m) result nodes.new }
    {
        if is_functional(m) {
            let f = self.book.field_at(r, 1);
            let g = self.function(f, nodes)?;
            fold_body(self.book, r, m, g, nodes)
        } else {
            plain_body(self.book, r, m, nodes)
        }
    }

    // A function's body, lowered anew for each call, in a scope of its parameters only.
    #[cycle(lowering)]
    fn function(&self, f: u16, nodes: &mut Nodes) -> Result<u16, Refusal>
        requires { StandsIn self.now.book.now f FUNCTION }
        ensures { Done nodes.old (function_in self.now f) result nodes.new }
    {
        let n = self.book.field_at(f, 1) as usize;
        let e = self.book.field_at(f, 2 + 2 * n);
        let scope = ScopeBindings::from_root(f);
        self.expression(e, &scope, nodes)
    }

    // A match of two arms: both arms, the scrutinee, and then the case.
    #[cycle(lowering)]
    fn two_arms(&self, r: u16, scope: &ScopeBindings, nodes: &mut Nodes) -> Result<u16, Refusal>
        requires { (MarkedIn self.now.book.now r EM) × (ScopeIn self.now scope.now) }
        ensures { Done nodes.old (lowered self.now r scope.now) result nodes.new }
    {
        let left = arm_at(self.book, r, 2);
        let right = arm_at(self.book, r, 4);
        let e = self.book.field_at(r, 1);
        let a = self.arm(r, left, scope, nodes)?;
        let b = self.arm(r, right, scope, nodes)?;
        let s = self.expression(e, scope, nodes)?;
        match_arms(r, s, a, b, nodes)
    }

    // A block: its statements begun in order, its end, and the statements ended from the last on.
    #[cycle(lowering)]
    fn block(&self, r: u16, scope: &ScopeBindings, nodes: &mut Nodes) -> Result<u16, Refusal>
        requires { (MarkedIn self.now.book.now r EB) × (ScopeIn self.now scope.now) }
        ensures { Done nodes.old (lowered self.now r scope.now) result nodes.new }
    {
        let count = self.book.field_at(r, 1) as usize;
        let mut begun = [0u16; 256];
        let mut own = *scope;
        for k in 0..count {
            let s = self.book.field_at(r, 2 + k);
            begun[k] = self.begin(s, &own, nodes)?;
            own = self.enter(s, own);
        }
        let last = self.end(r, &own, nodes)?;
        close_all(self.book, r, &begun[..count], last, nodes)
    }

    // The end of a block: an expression, or unit where there is none.
    #[cycle(lowering)]
    fn end(&self, r: u16, scope: &ScopeBindings, nodes: &mut Nodes) -> Result<u16, Refusal>
        requires { (MarkedIn self.now.book.now r EB) × (ScopeIn self.now scope.now) }
        ensures { Done nodes.old (last_in self.now r scope.now) result nodes.new }
    {
        match end_of(self.book, r) {
            Some(e) => self.expression(e, scope, nodes),
            None => nodes.put(r, UNIT, 0, 0),
        }
    }

    // A statement, up to the rest of its block.
    #[cycle(lowering)]
    fn begin(&self, s: u16, scope: &ScopeBindings, nodes: &mut Nodes) -> Result<u16, Refusal>
        requires { (StandsIn self.now.book.now s STATEMENT) × (ScopeIn self.now scope.now) }
        ensures { Done nodes.old (begin_in self.now s scope.now) result nodes.new }
    {
        if self.book.mark_at(s) == SA {
            let e = self.book.field_at(s, 1);
            let value = self.expression(e, scope, nodes)?;
            bind_value(s, value, scope.count, nodes)
        } else {
            let e = self.book.field_at(s, 0);
            self.expression(e, scope, nodes)
        }
    }

    // The scope of the rest of a block after statement s.
    fn enter(&self, s: u16, scope: ScopeBindings) -> ScopeBindings
        requires stands { StandsIn self.now.book.now s STATEMENT }
        requires scope_stands { ScopeIn self.now scope }
        ensures { EntersIn self.now s scope result }
    {
        if self.book.mark_at(s) != SA || scope.count >= 256 {
            return scope;
        }
        let pattern = self.book.field_at(s, 0);
        scope.insert(pattern)
    }
}

// The value of an assignment beside the environment, where so many bindings are live.
fn bind_value(s: u16, value: u16, live: usize, nodes: &mut Nodes) -> Result<u16, Refusal>
    ensures { Done nodes.old (binding_at s live (paired s value)) result nodes.new }
{
    if live >= 256 {
        return Err(Refusal {
            fault: Fault::Bindings,
            place: s,
        });
    }
    paired(nodes, s, value)
}
