// What is built of nodes everywhere: bits, selectors, rows.
#![tactic(auto, using(crate::proofs::Builds::builds), unfolding(crate::specs::Combinators::select, crate::specs::Combinators::applied))]

ghost use Rattle.std.specs.Prelude.{◌<◌, ◌≤◌, length};
ghost use Rattle.array.specs.Path.{path};
ghost use Rattle.named.specs.Combinators.{bit, kinds, wraps, select, joins, applied};
ghost use Rattle.named.specs.Stores.{Done};

use crate::node::{COMP, IDEN, INJL, INJR, Nodes, PAIR, UNIT};
use array::split;
use book::fault::Refusal;

// A bit: injl unit for false, injr unit for true.
pub fn bit(nodes: &mut Nodes, place: u16, value: bool) -> Result<u16, Refusal>
    ensures { Done nodes.old (bit place value) result nodes.new }
{
    let unit = nodes.put(place, UNIT, 0, 0)?;
    if value {
        nodes.put(place, INJR, unit, 0)
    } else {
        nodes.put(place, INJL, unit, 0)
    }
}

// A selector: iden, wrapped by takes and drops, the first outermost.
pub fn select(nodes: &mut Nodes, place: u16, steps: &[u8]) -> Result<u16, Refusal>
    ensures { Done nodes.old (select place steps.now) result nodes.new }
{
    let mut at = nodes.put(place, IDEN, 0, 0)?;
    for k in (0..steps.len()).rev() {
        at = nodes.put(place, steps[k], at, 0)?;
    }
    Ok(at)
}

// A node, wrapped along the path to element k of n by the kinds `left` and `right`, the path's first step outermost.
pub fn along(
    nodes: &mut Nodes,
    place: u16,
    node: u16,
    left: u8,
    right: u8,
    n: u32,
    k: u32,
) -> Result<u16, Refusal>
    requires { (k < n) × (n ≤ 256) }
    ensures { Done nodes.old (wraps place (kinds left right (path n k)) node) result nodes.new }
{
    if n < 2 {
        return Ok(node);
    }
    let s = split(n);
    if k < s {
        let inner = along(nodes, place, node, left, right, s, k)?;
        nodes.put(place, left, inner, 0)
    } else {
        let inner = along(nodes, place, node, left, right, n - s, k - s)?;
        nodes.put(place, right, inner, 0)
    }
}

// A row of nodes as a balanced tree: the original's fold of a BTreeSlice, for pairs and for cases. A book's rows have 256 elements at most,
// which is asked here and wherever a row is lent: a type for such rows would be made of a slice at each call.
pub fn join(nodes: &mut Nodes, place: u16, kind: u8, row: &[u16]) -> Result<u16, Refusal>
    requires { length row.now ≤ 256 }
    ensures { Done nodes.old (joins place kind row.now) result nodes.new }
{
    match row {
        [] => nodes.put(place, UNIT, 0, 0),
        [node] => Ok(*node),
        _ => {
            let (first, second) = row.split_at(split(row.len() as u32) as usize);
            let left = join(nodes, place, kind, first)?;
            let right = join(nodes, place, kind, second)?;
            nodes.put(place, kind, left, right)
        }
    }
}

// What node f makes of two others.
pub fn applied(nodes: &mut Nodes, place: u16, f: u16, a: u16, b: u16) -> Result<u16, Refusal>
    ensures { Done nodes.old (applied place f a b) result nodes.new }
{
    let input = nodes.put(place, PAIR, a, b)?;
    nodes.put(place, COMP, input, f)
}
