// The fold of an array: powers of two first, then the size's own powers joined. O is left, I is right.
#![tactic(auto, using(named::proofs::Storing::then, named::proofs::Storing::halt, named::proofs::Storing::handed), unfolding(crate::specs::ArrayFold::f_array_fold))]

ghost use Rattle.std.specs.Prelude.{◌^◌, ◌≤◌, ◌<◌, length};
ghost use Rattle.named.specs.Stores.{Done};
ghost use Rattle.builtins.specs.ArrayFold.{f_array_fold, tree_fold, array_fold, FoldNodes};

use array::top;
use book::fault::{Fault, Refusal};
use named::build::{applied, select};
use named::node::{DROP, Nodes, TAKE};

// How many nodes the fold of an array stores beyond the body: twelve for each power above the first, and for each one bit but the
// top one's.
#[tactic(auto, using(crate::proofs::Counts::counts_fit, crate::proofs::Counts::fold_nodes))]
pub fn array_fold_nodes(size: u16) -> u16
    requires { (0 < size) × (size ≤ 256) }
    ensures { FoldNodes size result }
{
    let n = size as u32;
    (12 * (top(n) + n.count_ones() - 1)) as u16
}

// Two folds, one after the other. A list's fold and a hash's add of both parts are alike (`recipes`, raw_hash.rt), but each stores its
// nodes in an order of its own, as the original does.
fn f_array_fold(nodes: &mut Nodes, place: u16, left: u16, right: u16) -> Result<u16, Refusal>
    ensures { Done nodes.old (f_array_fold place left right) result nodes.new }
{
    let oo = [TAKE, TAKE];
    let oi = [TAKE, DROP];
    let i = [DROP];
    let first = select(nodes, place, &oo)?;
    let second = select(nodes, place, &oi)?;
    let start = select(nodes, place, &i)?;
    let middle = applied(nodes, place, left, first, start)?;
    applied(nodes, place, right, second, middle)
}

// The fold of n elements by the powers: the top power of n on the right, what is left of n on the left.
#[tactic(auto, using(crate::proofs::Folds::top_below, crate::proofs::Folds::top_taken, crate::proofs::Folds::tree_one))]
fn tree_fold(nodes: &mut Nodes, place: u16, powers: &[u16], n: u32) -> Result<u16, Refusal>
    requires { (0 < n) × ((n < 2 ^ length powers.now) × (n ≤ 256)) }
    ensures { Done nodes.old (tree_fold n place powers.now n) result nodes.new }
{
    let most = top(n);
    let right = powers[most as usize];
    let rest = n - (1 << most);
    if rest == 0 {
        return Ok(right);
    }
    let left = tree_fold(nodes, place, powers, rest)?;
    f_array_fold(nodes, place, left, right)
}

// Folds an array of 1 to 256 elements. Where the table has no room for the whole fold, none of it is begun.
pub fn array_fold(nodes: &mut Nodes, place: u16, size: u16, f: u16) -> Result<u16, Refusal>
    requires { (0 < size) × (size ≤ 256) }
    ensures { Done nodes.old (array_fold place size f) result nodes.new }
{
    if nodes.room() < array_fold_nodes(size) as usize {
        return Err(Refusal {
            fault: Fault::Room,
            place,
        });
    }
    let most = top(size as u32) as usize;
    let mut powers = [f; 9];
    for k in 0..most {
        powers[k + 1] = f_array_fold(nodes, place, powers[k], powers[k])?;
    }
    tree_fold(nodes, place, &powers, size as u32)
}
