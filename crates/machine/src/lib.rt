// The machine: nodes are entered and values handed back by turns, and what is left to do stands in frames, so that no run needs more
// stack than another.
#![tactic(auto)]

ghost use Rattle.std.specs.Prelude.{◌≡◌, List, ℕ, ◌+◌, ◌≤◌, ◌<◌, IfOk};
ghost use Rattle.simplicity.specs.Jets.{jet_on};
ghost use Rattle.cells.specs.Entries.{kind_at};
ghost use Rattle.cells.specs.Cells.{shape_at, got, halt, deliver};
ghost use Rattle.book.specs.Text.{Text, text};
ghost use Rattle.named.specs.Combinators.{TAKE, DROP};
ghost use Rattle.nodes.specs.Given.{given};
ghost use Rattle.machine.specs.Run.{DEEP, hand_on, witnessed};
ghost use Rattle.machine.specs.Machine.{Answers, Backs, Branches, Downed, Driven, Entered, Handed, SoundIn, Turned, end_of, ended_by, given_in};

use book::fault::Fault;
use book::record::Book;
use book::word::word;
use cells::jets::{JetEnd, run_jet};
use cells::table::{Kept, LEFT, PAIR, RIGHT, from, keep, kind_at, left_at, right_at};
use named::node;
use nodes::given::{entry, is_typed};

// How deep a node may be entered, and how many frames there are room for. A depth is asked to be below it where a frame is put, and at most
// it elsewhere: as a ghost field of `State` the fact would leave a state without the names of its fields in proofs.
pub const DEEPEST: usize = 4096;

// What a run is lent: the book, the witness list, the cell of each value record, and the node table. That the row fits the book (`SoundIn`)
// is asked by those who read it; most of the machine does not.
#[derive(Clone, Copy)]
pub struct Lent<'a> {
    pub book: &'a Book<'a>,
    pub witnesses: &'a [u8],
    pub row: &'a [u16],
    pub nodes: &'a [u8],
}

// What is next: a node is entered on a cell, or a cell is handed back to the newest frame.
#[derive(Clone, Copy)]
pub enum Step {
    Enter,
    Back,
}

// How many frames there are, the node and the cell of the next step, and how many cells are used. Where a cell is handed back the node
// is 0. The state must stay in registers: with a node carried along there a run took 4 hundredths longer, and with `depth` after the
// numbers, where six bytes stay unused at the end, a third longer. So it is handed on by value, beside the cells and the frames.
#[derive(Clone, Copy)]
pub struct State {
    pub depth: usize,
    pub node: u16,
    pub value: u16,
    pub used: u16,
    pub step: Step,
}

// Why a run ended without a value.
#[derive(Clone, Copy)]
pub enum Ended {
    Failed,
    Refused(Fault),
}

// That, and the node at which it ended.
#[derive(Clone, Copy)]
pub struct Halt {
    pub end: Ended,
    pub node: u16,
}

// Which child of a pair is at work.
#[derive(Clone, Copy)]
pub enum Half {
    Left,
    Right,
}

// What is left to do at a node once a child has given a value: to hand the value on; to run the other child on it; to store the left or the
// right of the value; and of a pair, to run the right child on the cell that is held, or to store the pair of the cell that is held and the
// value. The halves of a pair are one case: as two of six, all reached through one table of jumps, a run of pairs took up to two fifths
// longer.
#[derive(Clone, Copy)]
pub enum Frame {
    Skip,
    Second { node: u16 },
    Lefted { node: u16 },
    Righted { node: u16 },
    Pair { half: Half, node: u16, held: u16 },
}

impl From<JetEnd> for Ended {
    ghost from_gives = { λ e r. r ≡ ended_by e };

    fn from(end: JetEnd) -> Ended {
        match end {
            JetEnd::Failed => Ended::Failed,
            JetEnd::Stuck => Ended::Refused(Fault::Stuck),
            JetEnd::Unknown => Ended::Refused(Fault::Jet),
        }
    }
}

impl State {
    // Cell v is handed back.
    fn back(self, v: u16) -> State
        ensures { Answers self (got 0 v) (Ok result) }
    {
        State {
            step: Step::Back,
            node: 0,
            value: v,
            ..self
        }
    }

    // The run ends at the state's node.
    fn halt(self, end: Ended) -> Halt
        ensures { Answers self (λ w. halt 0 (end_of end) self.node) (Err result) }
    {
        Halt {
            end,
            node: self.node,
        }
    }

    // The last cell that was kept is handed back, or one did not fit.
    fn back_kept(self, p: Kept) -> Result<State, Halt>
        ensures { Backs self p result }
    {
        if p.full {
            return Err(self.halt(Ended::Refused(Fault::Cells)));
        }
        Ok(State {
            step: Step::Back,
            node: 0,
            value: p.cell,
            used: p.used,
            ..self
        })
    }
}

// Puts a frame at the state's depth, and goes on to node m on cell y.
fn down(frames: &mut [Frame; DEEPEST], s: State, frame: Frame, m: u16, y: u16) -> State
    requires { s.depth < DEEP }
    ensures { Downed frames.old s.depth frame m y s.used frames.new result }
{
    let d = s.depth;
    frames[d] = frame;
    State {
        step: Step::Enter,
        node: m,
        value: y,
        depth: d + 1,
        used: s.used,
    }
}

// A take or a drop.
fn enter_part(
    nodes: &[u8],
    cells: &[u8],
    frames: &mut [Frame; DEEPEST],
    s: State,
    kind: u8,
) -> Result<State, Halt>
    requires step_is { (s.step ≡ Step.Enter) × (s.depth < DEEP) }
    requires kind_at_is { (kind_at nodes.now s.node ≡ kind) × ((TAKE ≤ kind) × (kind ≤ DROP)) }
    ensures { (b : Text) (ws : List ℕ) → Turned (given b ws nodes.now) cells.now frames.old s cells.now frames.new result }
{
    let x = s.value;
    if kind_at(cells, x) != PAIR {
        return Err(s.halt(Ended::Refused(Fault::Stuck)));
    }
    let m = left_at(nodes, s.node);
    if kind == node::TAKE {
        return Ok(down(frames, s, Frame::Skip, m, left_at(cells, x)));
    }
    Ok(down(frames, s, Frame::Skip, m, right_at(cells, x)))
}

// Hands child m the pair of a sum's part a and the rest e.
fn hand_on(
    cells: &mut [u8],
    frames: &mut [Frame; DEEPEST],
    s: State,
    m: u16,
    a: u16,
    e: u16,
) -> Result<State, Halt>
    requires { s.depth < DEEP }
    ensures { Entered cells.old frames.old s (λ kids. hand_on s.node a e (kids m)) cells.new frames.new result }
{
    let p = keep(cells, from(s.used), PAIR, a, e);
    if p.full {
        return Err(s.halt(Ended::Refused(Fault::Cells)));
    }
    let t = State { used: p.used, ..s };
    Ok(down(frames, t, Frame::Skip, m, p.cell))
}

// A case, or an assert, which fails on its hidden side.
fn enter_case(
    nodes: &[u8],
    cells: &mut [u8],
    frames: &mut [Frame; DEEPEST],
    s: State,
    kind: u8,
) -> Result<State, Halt>
    requires step_is { (s.step ≡ Step.Enter) × (s.depth < DEEP) }
    requires kind_at_is { (kind_at nodes.now s.node ≡ kind) × Branches kind }
    ensures { (b : Text) (ws : List ℕ) → Turned (given b ws nodes.now) cells.old frames.old s cells.new frames.new result }
{
    let x = s.value;
    if kind_at(cells, x) != PAIR {
        return Err(s.halt(Ended::Refused(Fault::Stuck)));
    }
    let sum = left_at(cells, x);
    let side = kind_at(cells, sum);
    let a = left_at(cells, sum);
    let e = right_at(cells, x);
    match side {
        LEFT if kind == node::ASSERTR => Err(s.halt(Ended::Failed)),
        LEFT => hand_on(cells, frames, s, left_at(nodes, s.node), a, e),
        RIGHT if kind == node::ASSERTL => Err(s.halt(Ended::Failed)),
        RIGHT => hand_on(cells, frames, s, right_at(nodes, s.node), a, e),
        _ => Err(s.halt(Ended::Refused(Fault::Stuck))),
    }
}

// A witness: its name's entry, if it is of its type.
fn enter_witness(lent: &Lent, s: State) -> Result<State, Halt>
    requires { SoundIn lent.now }
    ensures { Answers s (witnessed (given_in lent.now) s.node) result }
{
    let Lent {
        book,
        witnesses,
        row,
        nodes,
    } = *lent;
    let at = 2 * (left_at(nodes, s.node) as usize);
    if at + 1 >= witnesses.len() {
        return Err(s.halt(Ended::Refused(Fault::Witness)));
    }
    let r = word(witnesses, at);
    if is_typed(book, r, right_at(nodes, s.node)) {
        return Ok(s.back(entry(row, r)));
    }
    Err(s.halt(Ended::Refused(Fault::Witness)))
}

// A jet on the state's cell.
fn enter_jet(cells: &mut [u8], s: State, j: u16) -> Result<State, Halt>
    ensures { Handed cells.old s.used s.depth (deliver s.node (jet_on (shape_at cells.old) j s.value)) cells.new result }
{
    match run_jet(cells, s.used, j, s.value) {
        Ok(p) => s.back_kept(p),
        Err(end) => Err(s.halt(Ended::from(end))),
    }
}

// Enters the node of the state.
fn enter(
    lent: &Lent,
    cells: &mut [u8],
    frames: &mut [Frame; DEEPEST],
    s: State,
) -> Result<State, Halt>
    requires sound { SoundIn lent.now }
    requires step_is { (s.step ≡ Step.Enter) × (s.depth ≤ DEEP) }
    ensures { Turned (given_in lent.now) cells.old frames.old s cells.new frames.new result }
{
    if s.depth >= DEEPEST {
        return Err(s.halt(Ended::Refused(Fault::Steep)));
    }
    let nodes = lent.nodes;
    let n = s.node;
    let x = s.value;
    let kind = kind_at(nodes, n);
    match kind {
        node::IDEN => Ok(s.back(x)),
        node::UNIT => Ok(s.back(0)),
        node::INJL => Ok(down(frames, s, Frame::Lefted { node: n }, left_at(nodes, n), x)),
        node::INJR => Ok(down(frames, s, Frame::Righted { node: n }, left_at(nodes, n), x)),
        node::TAKE..=node::DROP => enter_part(nodes, cells, frames, s, kind),
        node::COMP => Ok(down(frames, s, Frame::Second { node: n }, left_at(nodes, n), x)),
        node::PAIR => Ok(down(
            frames,
            s,
            Frame::Pair {
                half: Half::Left,
                node: n,
                held: x,
            },
            left_at(nodes, n),
            x,
        )),
        node::CASE..=node::ASSERTR => enter_case(nodes, cells, frames, s, kind),
        node::FAIL => Err(s.halt(Ended::Failed)),
        node::WITNESS => enter_witness(lent, s),
        node::SCRIBE => Ok(s.back(entry(lent.row, left_at(nodes, n)))),
        node::JET => enter_jet(cells, s, left_at(nodes, n)),
        _ => Err(s.halt(Ended::Refused(Fault::Stuck))),
    }
}

// Hands the state's cell back to the newest frame.
fn back_to(
    nodes: &[u8],
    cells: &mut [u8],
    frames: &mut [Frame; DEEPEST],
    s: State,
) -> Result<State, Halt>
    requires { (s.step ≡ Step.Back) × ((s.depth ≡ 0 → ⊥) × (s.depth ≤ DEEP)) }
    ensures { (b : Text) (ws : List ℕ) → Turned (given b ws nodes.now) cells.old frames.old s cells.new frames.new result }
{
    let v = s.value;
    let t = State {
        depth: s.depth - 1,
        node: 0,
        ..s
    };
    match frames[t.depth] {
        Frame::Skip => Ok(t),
        Frame::Second { node } => Ok(down(frames, t, Frame::Skip, right_at(nodes, node), v)),
        Frame::Lefted { node } => {
            State { node, ..t }.back_kept(keep(cells, from(t.used), LEFT, v, 0))
        }
        Frame::Righted { node } => {
            State { node, ..t }.back_kept(keep(cells, from(t.used), RIGHT, v, 0))
        }
        Frame::Pair { half, node, held } => match half {
            Half::Left => {
                let frame = Frame::Pair {
                    half: Half::Right,
                    node,
                    held: v,
                };
                Ok(down(frames, t, frame, right_at(nodes, node), held))
            }
            Half::Right => {
                State { node, ..t }.back_kept(keep(cells, from(t.used), PAIR, held, v))
            }
        },
    }
}

// Turns until the run has ended, with the cell that is handed back last, or without one. A run that had ended stays as it ended.
pub fn drive(
    lent: &Lent,
    cells: &mut [u8],
    frames: &mut [Frame; DEEPEST],
    start: Result<State, Halt>,
) -> Result<State, Halt>
    requires sound { SoundIn lent.now }
    requires start_depth_in_range { IfOk start (λ s. s.depth ≤ DEEP) }
    ensures { Driven (given_in lent.now) cells.old frames.old start cells.new result }
{
    let mut s = start?;
    // No `for`: how many turns a run takes is known only once it has ended.
    'turns: loop {
        let next = match s.step {
            Step::Enter => enter(lent, cells, frames, s),
            Step::Back => {
                if s.depth == 0 {
                    return Ok(s);
                }
                back_to(lent.nodes, cells, frames, s)
            }
        };
        s = next?;
    }
}
