// The hash of a row of words. O is left, I is right.
#![tactic(auto, using(named::proofs::Storing::then, named::proofs::Storing::halt, named::proofs::Storing::handed), unfolding(crate::specs::RawHash::add_both, crate::specs::RawHash::raw_hash))]

ghost use Rattle.std.specs.Prelude.{◌≤◌, length};
ghost use Rattle.named.specs.Stores.{Done};
ghost use Rattle.builtins.specs.RawHash.{add_both, add_row, raw_hash, Widths};

use array::split;
use book::fault::Refusal;
use jet::add_jet;
use named::build::{applied, select};
use named::node::{COMP, DROP, IDEN, JET, Nodes, PAIR, TAKE, UNIT};

// The jets before and after the adds.
const HASH_INIT: u16 = 3;

const HASH_END: u16 = 10;

// Both parts of a row, the left one first.
fn add_both(nodes: &mut Nodes, place: u16, left: u16, right: u16) -> Result<u16, Refusal>
    ensures { Done nodes.old (add_both place left right) result nodes.new }
{
    let o = [TAKE];
    let io = [DROP, TAKE];
    let ii = [DROP, DROP];
    let context = select(nodes, place, &o)?;
    let first = select(nodes, place, &io)?;
    let second = select(nodes, place, &ii)?;
    let middle = applied(nodes, place, left, context, first)?;
    applied(nodes, place, right, middle, second)
}

// From a context and a part of the row to the context with that part added. `named`'s join is balanced so too, but over nodes that are
// there already: a function for both would be lent three closures that store nodes, each with a promise of what the table then holds.
#[tactic(auto, using(named::proofs::Storing::then, named::proofs::Storing::halt, named::proofs::Storing::handed, crate::proofs::Hashes::add_none, crate::proofs::Hashes::add_one, crate::proofs::Hashes::add_more))]
fn add_tuple(nodes: &mut Nodes, place: u16, widths: &[u16]) -> Result<u16, Refusal>
    requires { (length widths.now ≤ 256) × (Widths (length widths.now) widths.now) }
    ensures { Done nodes.old (add_row place widths.now) result nodes.new }
{
    match widths {
        [] => {
            let o = [TAKE];
            select(nodes, place, &o)
        }
        [width] => nodes.put(place, JET, add_jet(*width), 0),
        _ => {
            let (first, second) = widths.split_at(split(widths.len() as u32) as usize);
            let left = add_tuple(nodes, place, first)?;
            let right = add_tuple(nodes, place, second)?;
            add_both(nodes, place, left, right)
        }
    }
}

// Hashes words of these widths.
pub fn raw_hash(nodes: &mut Nodes, place: u16, widths: &[u16]) -> Result<u16, Refusal>
    requires count_in_range { length widths.now ≤ 256 }
    requires widths { Widths (length widths.now) widths.now }
    ensures { Done nodes.old (raw_hash place widths.now) result nodes.new }
{
    let unit = nodes.put(place, UNIT, 0, 0)?;
    let init = nodes.put(place, JET, HASH_INIT, 0)?;
    let fresh = nodes.put(place, COMP, unit, init)?;
    let words = nodes.put(place, IDEN, 0, 0)?;
    let input = nodes.put(place, PAIR, fresh, words)?;
    let adds = add_tuple(nodes, place, widths)?;
    let full = nodes.put(place, COMP, input, adds)?;
    let end = nodes.put(place, JET, HASH_END, 0)?;
    nodes.put(place, COMP, full, end)
}
