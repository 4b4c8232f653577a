// The bindings of a scope: a fixed row, searched from the newest.
#![tactic(auto)]

ghost use Rattle.std.specs.Prelude.{◌<◌, ◌≤◌, replicate};
ghost use Rattle.named.specs.Combinators.{TAKE, DROP, kinds, wraps};
ghost use Rattle.named.specs.Stores.{Done};
ghost use Rattle.pattern.specs.Seeks.{MemoFor, SeeksFor, SearchesFor, NearsFor};
ghost use Rattle.scope_bindings.specs.Scope.{reach, variable, scope_of, ScopeStands, Roots, Inserts};
ghost use Rattle.scope_bindings.specs.Scope.{ScopeFor, BindsFor, lookup_for, lookup_first, find_bound};

use book::fault::{Fault, Refusal};
use book::format::FN;
use book::record::Book;
use named::node::{DROP, Nodes, TAKE};
use pattern::{Near, Search};

// An entry for the ignore pattern, which no record need stand for. The entries are no Options: document 01 names a row of 256 filled with
// the ignore pattern, and an Option would take twice the room in each copy.
pub const IGNORED: u16 = 65535;

// The bindings in the order in which they were made: the first is the root, the input itself. A binding is a pattern's record, or a
// function's for its parameter tuple, or IGNORED. A scope is lent by reference; who binds copies it. That a scope stands in a book is no
// invariant of the type: it holds no book, which each copy would have to carry.
#[derive(Clone, Copy)]
pub struct ScopeBindings {
    pub bindings: [u16; 256],
    pub count: usize,
}

impl ScopeBindings {
    // A scope whose only binding is its root.
    pub fn from_root(root: u16) -> ScopeBindings
        ensures { Roots root result }
    {
        let mut bindings = [IGNORED; 256];
        bindings[0] = root;
        ScopeBindings { bindings, count: 1 }
    }

    // A scope with one binding more. The scope that it grew from is left as it is: a block's or an arm's bindings end with the copy.
    pub fn insert(mut self, pattern: u16) -> ScopeBindings
        requires { self.count < 256 }
        ensures { Inserts self pattern result }
    {
        self.bindings[self.count] = pattern;
        self.count += 1;
        self
    }

    // The selector of a name in a scope, or a refusal where the name is not in scope.
    pub fn get(&self, book: &Book, name: u16, nodes: &mut Nodes, place: u16) -> Result<u16, Refusal>
        requires { ScopeStands book.now.bytes book.now.index self.now }
        ensures { Done nodes.old (variable place name (scope_of book.now.bytes book.now.index self.now)) result nodes.new }
    {
        let search = Search { book, name, place };
        let found = self.get_near(&search, nodes)?;
        found.ok_or(Refusal {
            fault: Fault::Undefined,
            place,
        })
    }

    // Searches the bindings from the newest on, with no row of what was sought in vain, as long as their patterns are flat: to clear such
    // a row for each name and to ask it was nearly half of lowering a block of 200 bindings. The first binding that has a row within a row
    // is searched anew, with a row.
    fn get_near(&self, search: &Search, nodes: &mut Nodes) -> Result<Option<u16>, Refusal>
        requires { ScopeFor search.now self.now }
        ensures { SeeksFor search.now (lookup_for search.now self.now) nodes.old result nodes.new }
    {
        for at in (0..self.count).rev() {
            match get_flat(search, self.bindings[at], nodes)? {
                Near::Missing => {}
                Near::Nested => {
                    return self.get_far(search, at + 1, nodes);
                }
                Near::Found(found) => {
                    let node = reach(nodes, search.place, found, self.count - 1 - at, at)?;
                    return Ok(Some(node));
                }
            }
        }
        Ok(None)
    }

    // Searches the first `from` bindings, the others having been searched in vain, with a row of what was sought in vain.
    fn get_far(
        &self,
        search: &Search,
        from: usize,
        nodes: &mut Nodes,
    ) -> Result<Option<u16>, Refusal>
        requires scope_stands { ScopeFor search.now self.now }
        requires from_in_range { from ≤ self.now.count }
        ensures { SeeksFor search.now (lookup_first search.now self.now from) nodes.old result nodes.new }
    {
        let mut missing = [false; 4096];
        self.get_newest(search, from, &mut missing, nodes)
    }

    // The same, the newest of them first. One row of what was sought in vain serves them all, since they may share their parts.
    #[tactic(auto, using(crate::proofs::Reaches::passes))]
    fn get_newest(
        &self,
        search: &Search,
        from: usize,
        missing: &mut [bool],
        nodes: &mut Nodes,
    ) -> Result<Option<u16>, Refusal>
        requires scope_stands { ScopeFor search.now self.now }
        requires from_in_range { from ≤ self.now.count }
        requires memo { MemoFor search.now missing.old }
        ensures { SearchesFor search.now (lookup_first search.now self.now from) nodes.old result nodes.new missing.new }
    {
        for at in (0..from).rev() {
            let pattern = self.bindings[at];
            if let Some(inner) = get_bound(search, pattern, missing, nodes)? {
                let node = reach(nodes, search.place, inner, self.count - 1 - at, at)?;
                return Ok(Some(node));
            }
        }
        Ok(None)
    }
}

// Searches one binding, if its pattern is flat.
// `get_bound` is its like. They are two: this one has no row of names sought in vain to ask, which saves nearly half of lowering a block of
// 200 bindings (docs/DECISIONS.md, 20), and its answer is another type, `Near`, which can say that the pattern is nested.
#[tactic(auto, using(crate::proofs::Scopes::entries))]
fn get_flat(search: &Search, pattern: u16, nodes: &mut Nodes) -> Result<Near, Refusal>
    requires { BindsFor search.now pattern }
    ensures { NearsFor search.now (find_bound search.now pattern) nodes.old result nodes.new }
{
    if pattern == IGNORED {
        Ok(Near::Missing)
    } else if search.book.mark_at(pattern) == FN {
        match search.get_param(pattern, nodes)? {
            None => Ok(Near::Missing),
            Some(node) => Ok(Near::Found(node)),
        }
    } else {
        search.get_shallow(pattern, nodes)
    }
}

// Searches one binding, with a row of what was sought in vain.
#[tactic(auto, using(crate::proofs::Scopes::entries))]
fn get_bound(
    search: &Search,
    pattern: u16,
    missing: &mut [bool],
    nodes: &mut Nodes,
) -> Result<Option<u16>, Refusal>
    requires binds { BindsFor search.now pattern }
    requires memo { MemoFor search.now missing.old }
    ensures { SearchesFor search.now (find_bound search.now pattern) nodes.old result nodes.new missing.new }
{
    if pattern == IGNORED {
        Ok(None)
    } else if search.book.mark_at(pattern) == FN {
        search.get_param(pattern, nodes)
    } else {
        search.get_from(pattern, missing, nodes)
    }
}

// The steps to a binding around the node that was found in it, where so many bindings are newer and so many older.
#[tactic(auto, using(crate::proofs::Reaches::reaches))]
fn reach(
    nodes: &mut Nodes,
    place: u16,
    node: u16,
    newer: usize,
    older: usize,
) -> Result<u16, Refusal>
    ensures { Done nodes.old (wraps place (kinds TAKE DROP (reach newer older)) node) result nodes.new }
{
    if older == 0 {
        drops(nodes, place, node, newer)
    } else {
        let left = nodes.put(place, TAKE, node, 0)?;
        drops(nodes, place, left, newer)
    }
}

// A node wrapped by n drops.
#[tactic(auto, using(crate::proofs::Reaches::reaches))]
fn drops(nodes: &mut Nodes, place: u16, node: u16, n: usize) -> Result<u16, Refusal>
    ensures { Done nodes.old (wraps place (replicate n DROP) node) result nodes.new }
{
    let mut at = node;
    for _k in 0..n {
        at = nodes.put(place, DROP, at, 0)?;
    }
    Ok(at)
}
