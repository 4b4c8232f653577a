// The loop over a counter: the original's row of tasks, done from its end on.
#![tactic(auto, using(named::proofs::Storing::then, named::proofs::Storing::halt, named::proofs::Storing::handed), unfolding(crate::specs::ForWhile::turn, crate::specs::ForWhile::for_while0, crate::specs::ForWhile::adapt, crate::specs::ForWhile::task))]

ghost use Rattle.std.specs.Prelude.{◌≡◌, ◌-◌, ◌*◌, ◌^◌, ◌<◌, ◌≤◌, length, take};
ghost use Rattle.array.specs.Split.{top_of};
ghost use Rattle.named.specs.Stores.{Done};
ghost use Rattle.recipes.specs.ForWhile.{turn, for_while0, adapt, for_while, task, tasks, Twice};

use array::top;
use book::fault::Refusal;
use named::build::{bit, select};
use named::node::{CASE, COMP, DROP, INJL, Nodes, PAIR, TAKE};

// What is next done to the loop's body: the original's tasks, by their names.
#[derive(Clone, Copy)]
pub enum Task {
    ForWhile0,
    Adapt,
}

// A turn of the loop with a counter of one bit.
fn turn(nodes: &mut Nodes, place: u16, counter: bool, f: u16) -> Result<u16, Refusal>
    ensures { Done nodes.old (turn place counter f) result nodes.new }
{
    let o = [TAKE];
    let i = [DROP];
    let accumulator = select(nodes, place, &o)?;
    let context = select(nodes, place, &i)?;
    let count = bit(nodes, place, counter)?;
    let rest = nodes.put(place, PAIR, context, count)?;
    let input = nodes.put(place, PAIR, accumulator, rest)?;
    nodes.put(place, COMP, input, f)
}

// The turn with bit false, then, unless it stopped, the one with bit true.
fn for_while_0(nodes: &mut Nodes, place: u16, f: u16) -> Result<u16, Refusal>
    ensures { Done nodes.old (for_while0 place f) result nodes.new }
{
    let o = [TAKE];
    let i = [DROP];
    let first = turn(nodes, place, false, f)?;
    let context = select(nodes, place, &i)?;
    let input = nodes.put(place, PAIR, first, context)?;
    let result = select(nodes, place, &o)?;
    let stop = nodes.put(place, INJL, result, 0)?;
    let second = turn(nodes, place, true, f)?;
    let choice = nodes.put(place, CASE, stop, second)?;
    nodes.put(place, COMP, input, choice)
}

// Takes the counter's high half out of the context and joins it to the low.
fn adapt_f(nodes: &mut Nodes, place: u16, f: u16) -> Result<u16, Refusal>
    ensures { Done nodes.old (adapt place f) result nodes.new }
{
    let o = [TAKE];
    let ioo = [DROP, TAKE, TAKE];
    let ioi = [DROP, TAKE, DROP];
    let ii = [DROP, DROP];
    let accumulator = select(nodes, place, &o)?;
    let context = select(nodes, place, &ioo)?;
    let high = select(nodes, place, &ioi)?;
    let low = select(nodes, place, &ii)?;
    let counter = nodes.put(place, PAIR, high, low)?;
    let rest = nodes.put(place, PAIR, context, counter)?;
    let input = nodes.put(place, PAIR, accumulator, rest)?;
    nodes.put(place, COMP, input, f)
}

// A task, done to a node.
fn step(nodes: &mut Nodes, place: u16, next: Task, f: u16) -> Result<u16, Refusal>
    ensures { Done nodes.old (task place next f) result nodes.new }
{
    match next {
        Task::ForWhile0 => for_while_0(nodes, place, f),
        Task::Adapt => adapt_f(nodes, place, f),
    }
}

// The first tasks of the row once more behind themselves, and then an adapt.
fn twice(row: &mut [Task], count: usize)
    requires { 2 * count < length row.old }
    ensures { Twice count row.old row.new }
{
    row.copy_within(..count, count);
    row[2 * count] = Task::Adapt;
}

// The tasks of a loop over a counter of width 2 to the power, which stand first in the row: from one bit on, those of a width are made
// of those of half of it. Document 01 has a row of 31 in place of the original's stack.
#[tactic(auto, using(crate::proofs::Loops::few_tasks, crate::proofs::Loops::tasks_again), unfolding(crate::specs::ForWhile::tasks))]
fn filled(power: u32) -> [Task; 31]
    requires { power ≤ 4 }
    ensures { take (2 * 2 ^ power - 1) result ≡ tasks power }
{
    let mut stack = [Task::ForWhile0; 31];
    for k in 0..power {
        twice(&mut stack, (2 << k) - 1);
    }
    stack
}

// Loops over a counter of a width that is a power of two up to 16.
#[tactic(auto, using(crate::proofs::Loops::width_some, crate::proofs::Loops::width_few, crate::proofs::Loops::done_none, crate::proofs::Loops::done_next))]
pub fn for_while(nodes: &mut Nodes, place: u16, width: u16, f: u16) -> Result<u16, Refusal>
    requires width_is { width ≡ 2 ^ top_of width }
    requires width_in_range { width ≤ 16 }
    ensures { Done nodes.old (for_while place (top_of width) f) result nodes.new }
{
    let stack = filled(top(width as u32));
    let mut at = f;
    for k in (0..2 * (width as usize) - 1).rev() {
        at = step(nodes, place, stack[k], at)?;
    }
    Ok(at)
}
