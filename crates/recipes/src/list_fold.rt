// The fold of a list: its blocks double until the bound is reached. O is left, I is right.
#![tactic(auto, using(named::proofs::Storing::then, named::proofs::Storing::halt, named::proofs::Storing::handed), unfolding(crate::specs::ListFold::next_array, crate::specs::ListFold::with_block, crate::specs::ListFold::next_fold, crate::specs::ListFold::list_fold))]

ghost use Rattle.std.specs.Prelude.{◌≤◌};
ghost use Rattle.named.specs.Stores.{Done};
ghost use Rattle.recipes.specs.ListFold.{next_array, with_block, next_fold, list_fold};

use array::top;
use book::fault::Refusal;
use named::build::{applied, select};
use named::node::{CASE, COMP, DROP, Nodes, PAIR, TAKE};

// A block of twice the size: its first half, then its second. The folds of a block, of a list and of an array are much alike, but each
// stores its nodes in an order of its own, as the original does.
fn next_f_array(nodes: &mut Nodes, place: u16, f: u16) -> Result<u16, Refusal>
    ensures { Done nodes.old (next_array place f) result nodes.new }
{
    let oo = [TAKE, TAKE];
    let oi = [TAKE, DROP];
    let i = [DROP];
    let first = select(nodes, place, &oo)?;
    let start = select(nodes, place, &i)?;
    let middle = applied(nodes, place, f, first, start)?;
    let second = select(nodes, place, &oi)?;
    applied(nodes, place, f, second, middle)
}

// A block that is there, then the rest of the list.
fn with_block(nodes: &mut Nodes, place: u16, f: u16, g: u16) -> Result<u16, Refusal>
    ensures { Done nodes.old (with_block place f g) result nodes.new }
{
    let o = [TAKE];
    let ii = [DROP, DROP];
    let io = [DROP, TAKE];
    let block = select(nodes, place, &o)?;
    let start = select(nodes, place, &ii)?;
    let middle = applied(nodes, place, f, block, start)?;
    let rest = select(nodes, place, &io)?;
    applied(nodes, place, g, rest, middle)
}

// A list of twice the bound: its block, if there is one, then the rest.
fn next_f_fold(nodes: &mut Nodes, place: u16, f: u16, g: u16) -> Result<u16, Refusal>
    ensures { Done nodes.old (next_fold place f g) result nodes.new }
{
    let oo = [TAKE, TAKE];
    let oi = [TAKE, DROP];
    let i = [DROP];
    let block = select(nodes, place, &oo)?;
    let rest = select(nodes, place, &oi)?;
    let start = select(nodes, place, &i)?;
    let kept = nodes.put(place, PAIR, rest, start)?;
    let input = nodes.put(place, PAIR, block, kept)?;
    let without = nodes.put(place, DROP, g, 0)?;
    let with = with_block(nodes, place, f, g)?;
    let choice = nodes.put(place, CASE, without, with)?;
    nodes.put(place, COMP, input, choice)
}

// Folds a list of a bound that is a power of two. A list of bound 2 is none, or one element.
#[tactic(auto, using(named::proofs::Storing::then, named::proofs::Storing::halt, named::proofs::Storing::handed, crate::proofs::Folds::doubling_first, crate::proofs::Folds::doubling_next, crate::proofs::Folds::doubling_last, crate::proofs::Folds::list_whole), unfolding(crate::specs::ListFold::list_fold))]
pub fn list_fold(nodes: &mut Nodes, place: u16, bound: u16, f: u16) -> Result<u16, Refusal>
    requires { 2 ≤ bound }
    ensures { Done nodes.old (list_fold place bound f) result nodes.new }
{
    let i = [DROP];
    let keep = select(nodes, place, &i)?;
    let mut fold = nodes.put(place, CASE, keep, f)?;
    let mut whole = f;
    for _ in 1..top(bound as u32) {
        whole = next_f_array(nodes, place, whole)?;
        fold = next_f_fold(nodes, place, whole, fold)?;
    }
    Ok(fold)
}
