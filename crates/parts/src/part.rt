// What is stored around expressions: the parts of a lowering that lower no expression themselves.
#![tactic(auto, using(named::proofs::Storing::then, named::proofs::Storing::halt, named::proofs::Storing::handed), unfolding(crate::specs::Joins::matched, crate::specs::Joins::chosen))]

ghost use Rattle.std.specs.Prelude.{◌≡◌, true, false, ◌*◌, ◌<◌, ◌≤◌, length};
ghost use Rattle.array.specs.Split.{top_of};
ghost use Rattle.book.specs.Format.{EC, EW, EN, EB, CH};
ghost use Rattle.book.specs.Index.{field};
ghost use Rattle.named.specs.Combinators.{scribe, witness};
ghost use Rattle.named.specs.Stores.{Done};
ghost use Rattle.parts.specs.Joins.{empty_block, filled_block, blocks, matched, chosen, finished};
ghost use Rattle.parts.specs.Parts.{Marked, Stated, Power, span_at, is_call, is_functional, symbol_at, gather_run, wrap_run, fold_run, plain_run, Widths, close_run, close_all};

use book::fault::Refusal;
use book::format::{CA, CD, CH, CJ, CL, CN, CP, CQ, CR, CW, CY, E0, E1, EH, EL, EN, SA};
use book::record::Book;
use builtins::array_fold::array_fold;
use builtins::raw_hash::raw_hash;
use named::build::{along, join};
use named::node::{CASE, COMP, FAIL, IDEN, INJL, INJR, JET, Nodes, PAIR, SCRIBE, UNIT, WITNESS};
use recipes::calls::{followed, is_none, paired, unwrap_left, unwrap_right, with_symbol};
use recipes::for_while::for_while;
use recipes::list_fold::list_fold;

// A constant: its value's record.
pub fn constant(book: &Book, r: u16, nodes: &mut Nodes) -> Result<u16, Refusal>
    requires { Marked book.now.bytes book.now.index r EC }
    ensures { Done nodes.old (scribe r (field book.now.bytes book.now.index r 1)) result nodes.new }
{
    let value = book.field_at(r, 1);
    nodes.put(r, SCRIBE, value, 0)
}

// A witness: its name and its type's record.
pub fn witness(book: &Book, r: u16, nodes: &mut Nodes) -> Result<u16, Refusal>
    requires { Marked book.now.bytes book.now.index r EW }
    ensures { Done nodes.old (witness r (field book.now.bytes book.now.index r 1) (field book.now.bytes book.now.index r 0)) result nodes.new }
{
    let name = book.field_at(r, 1);
    let of = book.field_at(r, 0);
    nodes.put(r, WITNESS, name, of)
}

// A list's empty block: left unit.
fn empty_block(nodes: &mut Nodes, place: u16) -> Result<u16, Refusal>
    ensures { Done nodes.old (empty_block place) result nodes.new }
{
    let unit = nodes.put(place, UNIT, 0, 0)?;
    nodes.put(place, INJL, unit, 0)
}

// A list's filled block: right of its elements' tree.
fn filled_block(nodes: &mut Nodes, place: u16, roots: &[u16]) -> Result<u16, Refusal>
    requires { length roots.now ≤ 256 }
    ensures { Done nodes.old (filled_block place roots.now) result nodes.new }
{
    let tree = join(nodes, place, PAIR, roots)?;
    nodes.put(place, INJR, tree, 0)
}

// A list of a bound, of which `half` is the half: its first block, and then the rest at half the bound.
fn list(nodes: &mut Nodes, place: u16, roots: &[u16], half: usize) -> Result<u16, Refusal>
    requires { (length roots.now < 2 * half) × (Power half) }
    ensures { Done nodes.old (blocks place (top_of half) roots.now) result nodes.new }
{
    if roots.len() < half {
        let block = empty_block(nodes, place)?;
        if half == 1 {
            return Ok(block);
        }
        let rest = list(nodes, place, roots, half / 2)?;
        return nodes.put(place, PAIR, block, rest);
    }
    let (first, others) = roots.split_at(half);
    let block = filled_block(nodes, place, first)?;
    if half == 1 {
        return Ok(block);
    }
    let rest = list(nodes, place, others, half / 2)?;
    nodes.put(place, PAIR, block, rest)
}

// What joins the nodes of a record's elements: a list's blocks, a tree of cases, or a tree of pairs.
pub fn gather(book: &Book, r: u16, m: u8, roots: &[u16], nodes: &mut Nodes) -> Result<u16, Refusal>
    requires marked { Marked book.now.bytes book.now.index r m }
    requires count_is { length roots.now ≡ (span_at m (field book.now.bytes book.now.index r)).count }
    requires count_in_range { length roots.now ≤ 256 }
    ensures { Done nodes.old (gather_run book.now.bytes book.now.index r m roots.now) result nodes.new }
{
    if m == EL {
        let bound = book.field_at(r, 1) as usize;
        return list(nodes, r, roots, bound / 2);
    }
    let kind = if m == EH { CASE } else { PAIR };
    join(nodes, r, kind, roots)
}

// A variant: its payload along the path of its index.
fn variant(book: &Book, r: u16, payload: u16, nodes: &mut Nodes) -> Result<u16, Refusal>
    requires { Marked book.now.bytes book.now.index r EN }
    ensures { Done nodes.old (wrap_run book.now.bytes book.now.index r EN payload) result nodes.new }
{
    let k = book.field_at(r, 1) as u32;
    let n = book.field_at(r, 2) as u32;
    along(nodes, r, payload, INJL, INJR, n, k)
}

// What a record that is neither a match nor a call makes of its row's node.
pub fn wrap(book: &Book, r: u16, m: u8, inner: u16, nodes: &mut Nodes) -> Result<u16, Refusal>
    requires { Marked book.now.bytes book.now.index r m }
    ensures { Done nodes.old (wrap_run book.now.bytes book.now.index r m inner) result nodes.new }
{
    match m {
        E0 => nodes.put(r, INJL, inner, 0),
        E1 => nodes.put(r, INJR, inner, 0),
        EN => variant(book, r, inner, nodes),
        _ => Ok(inner),
    }
}

// The case of a match, after its arms and its scrutinee.
pub fn match_arms(
    r: u16,
    scrutinee: u16,
    left: u16,
    right: u16,
    nodes: &mut Nodes,
) -> Result<u16, Refusal>
    ensures { Done nodes.old (matched r scrutinee left right) result nodes.new }
{
    let input = paired(nodes, r, scrutinee)?;
    let case = nodes.put(r, CASE, left, right)?;
    nodes.put(r, COMP, input, case)
}

// An enum's match, after its tree of cases and its scrutinee.
pub fn choose_arm(r: u16, scrutinee: u16, cases: u16, nodes: &mut Nodes) -> Result<u16, Refusal>
    ensures { Done nodes.old (chosen r scrutinee cases) result nodes.new }
{
    let input = paired(nodes, r, scrutinee)?;
    nodes.put(r, COMP, input, cases)
}

// The symbol of a call, 0 where its mark has none: a book itself has 0 for a call without a symbol, so an Option would say it in two ways.
fn symbol_of(book: &Book, r: u16, m: u8) -> u16
    requires { Marked book.now.bytes book.now.index r m }
    ensures { result ≡ symbol_at m (field book.now.bytes book.now.index r) }
{
    match m {
        CJ | CL | CR | CD | CA | CP | CH => book.field_at(r, 1),
        _ => 0,
    }
}

// A call, after its arguments and its body: by way of an assert where its symbol is asked for.
pub fn finish(
    book: &Book,
    symbols: bool,
    r: u16,
    m: u8,
    arguments: u16,
    body: u16,
    nodes: &mut Nodes,
) -> Result<u16, Refusal>
    requires { Marked book.now.bytes book.now.index r m }
    ensures { Done nodes.old (finished symbols r (symbol_at m (field book.now.bytes book.now.index r)) arguments body) result nodes.new }
{
    let symbol = symbol_of(book, r, m);
    if symbols && 0 < symbol {
        with_symbol(nodes, r, symbol, arguments, body)
    } else {
        nodes.put(r, COMP, arguments, body)
    }
}

// The bit widths of a hash's words, as a row.
fn widths_of(book: &Book, r: u16, widths: &mut [u16])
    requires marked { Marked book.now.bytes book.now.index r CH }
    requires count_is { length widths.old ≡ field book.now.bytes book.now.index r 2 }
    ensures count { length widths.new ≡ field book.now.bytes book.now.index r 2 }
    ensures widths { Widths book.now.bytes book.now.index r (length widths.new) widths.new }
{
    for (k, width) in widths.iter_mut().enumerate() {
        *width = book.field_at(r, 3 + 2 * k);
    }
}

// The body of a hash.
fn hash_body(book: &Book, r: u16, nodes: &mut Nodes) -> Result<u16, Refusal>
    requires { Marked book.now.bytes book.now.index r CH }
    ensures { Done nodes.old (plain_run book.now.bytes book.now.index r CH) result nodes.new }
{
    let count = book.field_at(r, 2) as usize;
    let mut row = [0u16; 256];
    let widths = &mut row[..count];
    widths_of(book, r, widths);
    raw_hash(nodes, r, widths)
}

// The body of a call that names no function.
pub fn plain_body(book: &Book, r: u16, m: u8, nodes: &mut Nodes) -> Result<u16, Refusal>
    requires marked { Marked book.now.bytes book.now.index r m }
    requires is_call_is { is_call m ≡ true }
    requires is_functional_is { is_functional m ≡ false }
    ensures { Done nodes.old (plain_run book.now.bytes book.now.index r m) result nodes.new }
{
    match m {
        CJ => {
            let jet = book.field_at(r, 2);
            nodes.put(r, JET, jet, 0)
        }
        CL => unwrap_left(nodes, r),
        CR => unwrap_right(nodes, r),
        CD => nodes.put(r, IDEN, 0, 0),
        CA => nodes.put(r, JET, 0, 0),
        CP => nodes.put(r, FAIL, 0, 0),
        CN => is_none(nodes, r),
        _ => hash_body(book, r, nodes),
    }
}

// What a fold or a loop makes of its function's node; a plain call takes it as it is.
pub fn fold_body(book: &Book, r: u16, m: u8, body: u16, nodes: &mut Nodes) -> Result<u16, Refusal>
    requires { Marked book.now.bytes book.now.index r m }
    ensures { Done nodes.old (fold_run book.now.bytes book.now.index r m body) result nodes.new }
{
    match m {
        CQ => {
            let bound = book.field_at(r, 2);
            list_fold(nodes, r, bound, body)
        }
        CY => {
            let size = book.field_at(r, 2);
            array_fold(nodes, r, size, body)
        }
        CW => {
            let width = book.field_at(r, 2);
            for_while(nodes, r, width, body)
        }
        _ => Ok(body),
    }
}

// A statement, after the rest of its block.
fn close(book: &Book, s: u16, begun: u16, rest: u16, nodes: &mut Nodes) -> Result<u16, Refusal>
    requires { Stated book.now.bytes book.now.index s }
    ensures { Done nodes.old (close_run book.now.bytes book.now.index s begun rest) result nodes.new }
{
    if book.mark_at(s) == SA {
        nodes.put(s, COMP, begun, rest)
    } else {
        followed(nodes, s, begun, rest)
    }
}

// A block's statements, ended from the last on.
pub fn close_all(
    book: &Book,
    r: u16,
    begun: &[u16],
    end: u16,
    nodes: &mut Nodes,
) -> Result<u16, Refusal>
    requires marked { Marked book.now.bytes book.now.index r EB }
    requires count_is { length begun.now ≡ field book.now.bytes book.now.index r 1 }
    ensures { Done nodes.old (close_all book.now.bytes book.now.index r begun.now (length begun.now) end) result nodes.new }
{
    let mut rest = end;
    for k in (0..begun.len()).rev() {
        let s = book.field_at(r, 2 + k);
        rest = close(book, s, begun[k], rest, nodes)?;
    }
    Ok(rest)
}
