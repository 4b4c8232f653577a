// A book that was read: its records by their numbers, their marks and fields.
use crate::format::mark_of;
use crate::word::word;
use std::marker::Model;

// A book, where each of its records begins, and how many there are: what every pass after READ is lent. Contracts see it as a `Text`. That
// the book is valid is no invariant of the type: `mark_at` and `field_at` ask only that a record lies in it (docs/PROMISES.md), so who
// needs more says `Valid`.
#[derive(Drop)]
pub struct Book<'a> {
    bytes: &'a [u8],
    index: &'a [u16],
    records: u16,
}

impl<'a> Model for Book<'a> {
    ghost use Rattle.book.specs.Text.{Text, text};

    ghost Value = { Text };

    ghost view = { λ b. text b.bytes.now b.index.now b.records };
}

impl<'a> Book<'a> {
    ghost use Rattle.std.specs.Prelude.{◌≡◌, ◌+◌};
    ghost use Rattle.book.specs.Index.{mark, field, Begins, Lies};
    ghost use Rattle.book.specs.Text.{text};

    pub fn new(bytes: &'a [u8], index: &'a [u16], records: u16) -> Book<'a>
        ensures { result ≡ text bytes.now index.now records }
    {
        Book {
            bytes,
            index,
            records,
        }
    }

    // How many records there are.
    pub fn records(&self) -> u16
        ensures { result ≡ self.now.records }
    {
        self.records
    }

    // The mark of record r.
    pub fn mark_at(&self, r: u16) -> u8
        requires { Begins self.now.bytes self.now.index r }
        ensures { result ≡ mark self.now.bytes self.now.index r }
    {
        let at = self.index[r as usize] as usize;
        mark_of(word(self.bytes, at))
    }

    // Field k of record r.
    pub fn field_at(&self, r: u16, k: usize) -> u16
        requires { Lies self.now.bytes self.now.index r k }
        ensures { result ≡ field self.now.bytes self.now.index r k }
    {
        let at = self.index[r as usize] as usize;
        word(self.bytes, at + 2 + 2 * k)
    }

    // Fields k and k + 1 of record r.
    pub fn pair_at(&self, r: u16, k: usize) -> (u16, u16)
        requires first { Lies self.now.bytes self.now.index r k }
        requires second { Lies self.now.bytes self.now.index r (k + 1) }
        ensures first { result.0 ≡ field self.now.bytes self.now.index r k }
        ensures second { result.1 ≡ field self.now.bytes self.now.index r (k + 1) }
    {
        // So k + 1 does not overflow.
        prove!(k < self.bytes.len());
        (self.field_at(r, k), self.field_at(r, k + 1))
    }
}
