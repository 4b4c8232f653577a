// Names in patterns: where a name stands, as the selector that leads to it.
#![tactic(auto)]

ghost use Rattle.std.specs.Prelude.{◌≡◌};
ghost use Rattle.book.specs.Format.{PATTERN, FUNCTION, PT};
ghost use Rattle.book.specs.Index.{mark};
ghost use Rattle.book.specs.Books.{StandsIn};
ghost use Rattle.pattern.specs.Seeks.{MemoFor, SearchesFor, NearsFor, SeeksFor, find_for, find_param};

use book::fault::Refusal;
use book::format::{PI, PT};
use book::record::Book;
use named::build::along;
use named::node::{DROP, IDEN, Nodes, TAKE};

// What a search that keeps no row of vain searches finds: the name is missing; a row stands within a row, which is for a search that
// keeps one; or the name's selector.
#[derive(Clone, Copy)]
pub enum Near {
    Missing,
    Nested,
    Found(u16),
}

// What a search is for: a name in a book's patterns, and the record that its nodes are stored for.
#[derive(Clone, Copy)]
pub struct Search<'a> {
    pub book: &'a Book<'a>,
    pub name: u16,
    pub place: u16,
}

// Each search stores the selector of the name that it finds, and nothing where it finds none.
impl Search<'_> {
    // Searches a pattern from the left. Patterns share their parts, so that a pattern may have more places than could ever be visited:
    // `missing` says of each record whether this name was already sought there in vain, and no such record is entered again.
    #[cycle(seeking)]
    #[tactic(auto, using(crate::proofs::Searches::entries))]
    pub fn get_from(
        &self,
        p: u16,
        missing: &mut [bool],
        nodes: &mut Nodes,
    ) -> Result<Option<u16>, Refusal>
        requires { (StandsIn self.now.book.now p PATTERN) × (MemoFor self.now missing.old) }
        ensures { SearchesFor self.now (find_for self.now p) nodes.old result nodes.new missing.new }
    {
        if missing[p as usize] {
            return Ok(None);
        }
        match self.book.mark_at(p) {
            PT => self.get_row(p, missing, nodes),
            PI if self.book.field_at(p, 0) == self.name => {
                let node = nodes.put(self.place, IDEN, 0, 0)?;
                Ok(Some(node))
            }
            _ => Ok(None),
        }
    }

    // The same for a row: its elements one after another. The steps to the element that has the name go around what was found in it.
    #[cycle(seeking)]
    fn get_row(
        &self,
        p: u16,
        missing: &mut [bool],
        nodes: &mut Nodes,
    ) -> Result<Option<u16>, Refusal>
        requires { (StandsIn self.now.book.now p PATTERN) × ((mark self.now.book.now.bytes self.now.book.now.index p ≡ PT) × (MemoFor self.now missing.old)) }
        ensures { SearchesFor self.now (find_for self.now p) nodes.old result nodes.new missing.new }
    {
        let n = self.book.field_at(p, 0) as u32;
        for k in 0..n {
            let part = self.book.field_at(p, 1 + (k as usize));
            if let Some(inner) = self.get_from(part, missing, nodes)? {
                let node = along(nodes, self.place, inner, TAKE, DROP, n, k)?;
                return Ok(Some(node));
            }
        }
        missing[p as usize] = true;
        Ok(None)
    }

    // Searches a function's parameter tuple from the left.
    pub fn get_param(&self, f: u16, nodes: &mut Nodes) -> Result<Option<u16>, Refusal>
        requires { StandsIn self.now.book.now f FUNCTION }
        ensures { SeeksFor self.now (find_param self.now f) nodes.old result nodes.new }
    {
        let n = self.book.field_at(f, 1) as u32;
        for k in 0..n {
            if self.book.field_at(f, 2 + 2 * (k as usize)) == self.name {
                let inner = nodes.put(self.place, IDEN, 0, 0)?;
                let node = along(nodes, self.place, inner, TAKE, DROP, n, k)?;
                return Ok(Some(node));
            }
        }
        Ok(None)
    }

    // Searches a pattern that nests no row in a row, as most do. Each of its places is one field, so nothing need be remembered, and no
    // row has to be cleared for each name.
    pub fn get_shallow(&self, p: u16, nodes: &mut Nodes) -> Result<Near, Refusal>
        requires { StandsIn self.now.book.now p PATTERN }
        ensures { NearsFor self.now (find_for self.now p) nodes.old result nodes.new }
    {
        if self.book.mark_at(p) == PT {
            self.get_among(p, nodes)
        } else {
            self.get_single(p, nodes)
        }
    }

    // The elements of a row from the left, up to the first that is a row itself. `get_row` is its like with a row of vain searches, but
    // that one enters each row within, and this one none: one function for both would call itself, be told whether it may, and answer
    // three ways where `get_row` has two.
    fn get_among(&self, p: u16, nodes: &mut Nodes) -> Result<Near, Refusal>
        requires stands { StandsIn self.now.book.now p PATTERN }
        requires mark_is { mark self.now.book.now.bytes self.now.book.now.index p ≡ PT }
        ensures { NearsFor self.now (find_for self.now p) nodes.old result nodes.new }
    {
        let n = self.book.field_at(p, 0) as u32;
        for k in 0..n {
            let part = self.book.field_at(p, 1 + (k as usize));
            match self.get_single(part, nodes)? {
                Near::Missing => {}
                Near::Nested => return Ok(Near::Nested),
                Near::Found(inner) => {
                    let node = along(nodes, self.place, inner, TAKE, DROP, n, k)?;
                    return Ok(Near::Found(node));
                }
            }
        }
        Ok(Near::Missing)
    }

    // A pattern that is no row: a name, or nothing named.
    #[tactic(auto, using(crate::proofs::Searches::singles))]
    fn get_single(&self, p: u16, nodes: &mut Nodes) -> Result<Near, Refusal>
        requires { StandsIn self.now.book.now p PATTERN }
        ensures { NearsFor self.now (find_for self.now p) nodes.old result nodes.new }
    {
        match self.book.mark_at(p) {
            PT => Ok(Near::Nested),
            PI if self.book.field_at(p, 0) == self.name => {
                let node = nodes.put(self.place, IDEN, 0, 0)?;
                Ok(Near::Found(node))
            }
            _ => Ok(Near::Missing),
        }
    }
}
