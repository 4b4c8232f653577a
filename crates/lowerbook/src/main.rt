// Lowers a book on standard input without symbols, and prints its nodes, or its refusal.
#![tactic(auto)]

ghost use Rattle.std.specs.Prelude.{◌+◌, ◌*◌, ◌≤◌, length};

use compile::lower;
use console::{print_count, print_refusal, read_full};
use named::entry::ENTRY;
use named::node::{
    ASSERTL, ASSERTR, CASE, COMP, DROP, FAIL, IDEN, INJL, INJR, PAIR, SCRIBE, TAKE, UNIT, WITNESS,
};
use std::io;
use std::io::Write;

// One byte more than a book may have: a longer input is refused as such.
const BOOK: usize = 65536;

// Room for 13,000 nodes.
const ROOM: usize = ENTRY * 13000;

// A kind's name.
fn name_of(kind: u8) -> &'static str {
    match kind {
        IDEN => "iden",
        UNIT => "unit",
        INJL => "injl",
        INJR => "injr",
        TAKE => "take",
        DROP => "drop",
        COMP => "comp",
        CASE => "case",
        PAIR => "pair",
        ASSERTL => "assertl",
        ASSERTR => "assertr",
        FAIL => "fail",
        WITNESS => "witness",
        SCRIBE => "scribe",
        _ => "jet",
    }
}

// How many operands a kind has.
fn operands(kind: u8) -> usize {
    match kind {
        IDEN | UNIT | FAIL => 0,
        COMP..=ASSERTR | WITNESS => 2,
        _ => 1,
    }
}

fn print_operand(out: &mut impl Write, low: u8, high: u8) -> io::Result<()> {
    let operand = u16::from_le_bytes([low, high]);
    write!(out, " {operand}")
}

// Node k: its number, kind and operands.
fn print_node(out: &mut impl Write, nodes: &[u8], k: usize) -> io::Result<()>
    requires { 5 * k + 5 ≤ length nodes.now }
{
    let at = ENTRY * k;
    let kind = nodes[at];
    let name = name_of(kind);
    write!(out, "{k} {name}")?;
    let shown = operands(kind);
    if 0 < shown {
        print_operand(out, nodes[at + 1], nodes[at + 2])?;
    }
    if 1 < shown {
        print_operand(out, nodes[at + 3], nodes[at + 4])?;
    }
    out.write_all(b"\n")
}

fn print_nodes(out: &mut impl Write, nodes: &[u8], count: usize) -> io::Result<()>
    requires { 5 * count ≤ length nodes.now }
{
    print_count(out, b"nodes", count as u64)?;
    for k in 0..count {
        print_node(out, nodes, k)?;
    }
    Ok(())
}

fn main(rt: HostRuntime) -> io::Result<()> {
    let mut buffer = [0u8; BOOK];
    let n = read_full(&mut rt.stdin(), &mut buffer)?;
    let mut nodes = [0u8; ROOM];
    let mut out = rt.stdout();
    match lower(&buffer[..n], false, &mut nodes) {
        Ok(count) => print_nodes(&mut out, &nodes, count as usize),
        Err(why) => print_refusal(&mut out, why),
    }
}
