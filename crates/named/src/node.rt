// Nodes: five bytes each in a lent table, stored one after another.
use crate::entry::{ENTRY, write_entry};
use book::fault::{Fault, Refusal};

// The kinds of nodes: document 01, Stored order. They are numbers and no enum: they are bytes of the table, and document 01 has RUN and the
// table check decide by kind over number cases.
pub const IDEN: u8 = 1;

pub const UNIT: u8 = 2;

pub const INJL: u8 = 3;

pub const INJR: u8 = 4;

pub const TAKE: u8 = 5;

pub const DROP: u8 = 6;

pub const COMP: u8 = 7;

pub const CASE: u8 = 8;

pub const PAIR: u8 = 9;

pub const ASSERTL: u8 = 10;

pub const ASSERTR: u8 = 11;

pub const FAIL: u8 = 12;

pub const WITNESS: u8 = 13;

pub const SCRIBE: u8 = 14;

pub const JET: u8 = 15;

// A lent table, and the number of its next node, which is how many there are; clauses name both. It has no model: from a model a caller
// would not learn that what its functions store, they store into the bytes that were lent.
#[derive(Drop)]
pub struct Nodes<'a> {
    pub bytes: &'a mut [u8],
    pub next: u16,
}

impl<'a> Nodes<'a> {
    ghost use Rattle.std.specs.Prelude.{◌≡◌, ◌-◌, length};
    ghost use Rattle.named.specs.Cut.{room};
    ghost use Rattle.named.specs.Stores.{Done};
    ghost use Rattle.named.specs.Table.{Fresh};
    ghost use Rattle.named.specs.Trace.{emit};

    // A table that has no nodes yet.
    pub fn new(bytes: &'a mut [u8]) -> Nodes<'a>
        ensures { Fresh bytes.entry result }
    {
        Nodes { bytes, next: 0 }
    }

    // How many nodes more there is room for: document 01, Stored order.
    #[tactic(auto, unfolding(crate::specs::Cut::room))]
    pub fn room(&self) -> usize
        ensures { result ≡ room (length self.now.bytes.now) - self.now.next }
    {
        (self.bytes.len() / ENTRY)
            .min(65535)
            .saturating_sub(self.next as usize)
    }

    // Stores a node for a record, if there is room for it, and answers its number. The record is an argument and no field: it changes with
    // each step of LOWER, while the table stays. The next number is made of the node's, not of `next`: that could be one of the bytes that
    // were just written, and so would be read again, for which each node would wait; folds and loops took up to twice as long.
    #[tactic(auto, using(crate::proofs::Storing::put_fits, crate::proofs::Storing::put_full), unfolding(crate::specs::Cut::room))]
    pub fn put(&mut self, place: u16, kind: u8, left: u16, right: u16) -> Result<u16, Refusal>
        ensures { Done self.old (emit place kind left right) result self.new }
    {
        let node = self.next;
        if !write_entry(self.bytes, node, kind, left, right) {
            return Err(Refusal {
                fault: Fault::Room,
                place,
            });
        }
        self.next = node + 1;
        Ok(node)
    }
}
