// The short bodies of calls, and how statements and matches are tied.
#![tactic(auto, using(named::proofs::Storing::then, named::proofs::Storing::halt, named::proofs::Storing::handed), unfolding(crate::specs::Calls::beside_unit, crate::specs::Calls::unwrap_left, crate::specs::Calls::unwrap_right, crate::specs::Calls::is_none, crate::specs::Calls::with_symbol, crate::specs::Calls::paired, crate::specs::Calls::followed))]

ghost use Rattle.named.specs.Stores.{Done};
ghost use Rattle.recipes.specs.Calls.{beside_unit, unwrap_left, unwrap_right, is_none, with_symbol, paired, followed};

use book::fault::Refusal;
use named::build::{bit, select};
use named::node::{ASSERTL, ASSERTR, CASE, COMP, DROP, IDEN, Nodes, PAIR, TAKE, UNIT};

// The input beside a unit: the shape that a case and an assert ask for.
fn beside_unit(nodes: &mut Nodes, place: u16) -> Result<u16, Refusal>
    ensures { Done nodes.old (beside_unit place) result nodes.new }
{
    let input = nodes.put(place, IDEN, 0, 0)?;
    let unit = nodes.put(place, UNIT, 0, 0)?;
    nodes.put(place, PAIR, input, unit)
}

// The left side of a sum. It and the right side stay two functions: the child and the symbol of their asserts stand the other way
// round, so that one for both would choose by a parameter in its body and in its promise.
pub fn unwrap_left(nodes: &mut Nodes, place: u16) -> Result<u16, Refusal>
    ensures { Done nodes.old (unwrap_left place) result nodes.new }
{
    let o = [TAKE];
    let input = beside_unit(nodes, place)?;
    let inner = select(nodes, place, &o)?;
    let assert = nodes.put(place, ASSERTL, inner, 0)?;
    nodes.put(place, COMP, input, assert)
}

// The right side of a sum.
pub fn unwrap_right(nodes: &mut Nodes, place: u16) -> Result<u16, Refusal>
    ensures { Done nodes.old (unwrap_right place) result nodes.new }
{
    let o = [TAKE];
    let input = beside_unit(nodes, place)?;
    let inner = select(nodes, place, &o)?;
    let assert = nodes.put(place, ASSERTR, 0, inner)?;
    nodes.put(place, COMP, input, assert)
}

// Whether a sum is on its left side.
pub fn is_none(nodes: &mut Nodes, place: u16) -> Result<u16, Refusal>
    ensures { Done nodes.old (is_none place) result nodes.new }
{
    let input = beside_unit(nodes, place)?;
    let yes = bit(nodes, place, true)?;
    let no = bit(nodes, place, false)?;
    let choice = nodes.put(place, CASE, yes, no)?;
    nodes.put(place, COMP, input, choice)
}

// A call that carries a symbol: the assert always holds, and hands the arguments on to the body.
pub fn with_symbol(
    nodes: &mut Nodes,
    place: u16,
    symbol: u16,
    args: u16,
    body: u16,
) -> Result<u16, Refusal>
    ensures { Done nodes.old (with_symbol place symbol args body) result nodes.new }
{
    let tag = bit(nodes, place, false)?;
    let input = nodes.put(place, PAIR, tag, args)?;
    let inner = nodes.put(place, DROP, body, 0)?;
    let assert = nodes.put(place, ASSERTL, inner, symbol)?;
    nodes.put(place, COMP, input, assert)
}

// A node beside the environment.
pub fn paired(nodes: &mut Nodes, place: u16, a: u16) -> Result<u16, Refusal>
    ensures { Done nodes.old (paired place a) result nodes.new }
{
    let old = nodes.put(place, IDEN, 0, 0)?;
    nodes.put(place, PAIR, a, old)
}

// A statement whose value is not used, and what follows it.
pub fn followed(nodes: &mut Nodes, place: u16, value: u16, rest: u16) -> Result<u16, Refusal>
    ensures { Done nodes.old (followed place value rest) result nodes.new }
{
    let i = [DROP];
    let both = nodes.put(place, PAIR, value, rest)?;
    let second = select(nodes, place, &i)?;
    nodes.put(place, COMP, both, second)
}
