// The check of a node table: its first malformed node.
ghost use Rattle.std.specs.Prelude.{◌≡◌, ◌<◌, ◌≤◌};
ghost use Rattle.book.specs.Books.{ValidIn};
ghost use Rattle.book.specs.Text.{text};
ghost use Rattle.nodes.specs.Nodes.{roles, roles_of, operand_at, role_at, fits, first_bad, judge};

use crate::given::is_of;
use book::format::{TYPE, VALUE};
use book::record::Book;
use cells::table::{kind_at, left_at, right_at};
use named::entry::ENTRY;
use named::node::{
    ASSERTL, ASSERTR, COMP, DROP, FAIL, IDEN, INJL, JET, PAIR, SCRIBE, UNIT, WITNESS,
};

// What an operand must be: anything, a child, a type's or a value's record, a jet. Nothing is right where the kind is bad.
#[derive(Clone, Copy, PartialEq, Eq)]
pub enum Role {
    Free,
    Child,
    OfType,
    OfValue,
    OfJet,
    Never,
}

// The roles of a node's two operands.
#[derive(Clone, Copy)]
pub struct Roles {
    pub first: Role,
    pub second: Role,
}

impl Roles {
    fn of(first: Role, second: Role) -> Roles
        ensures { result ≡ roles first second }
    {
        Roles { first, second }
    }
}

// The roles of a kind's operands.
#[tactic(auto, unfolding(crate::specs::Nodes::roles_of))]
fn roles_of(kind: u8) -> Roles
    ensures { result ≡ roles_of kind }
{
    match kind {
        IDEN..=UNIT => Roles::of(Role::Free, Role::Free),
        INJL..=DROP => Roles::of(Role::Child, Role::Free),
        COMP..=PAIR => Roles::of(Role::Child, Role::Child),
        ASSERTL => Roles::of(Role::Child, Role::Free),
        ASSERTR => Roles::of(Role::Free, Role::Child),
        FAIL => Roles::of(Role::Free, Role::Free),
        WITNESS => Roles::of(Role::Free, Role::OfType),
        SCRIBE => Roles::of(Role::OfValue, Role::Free),
        JET => Roles::of(Role::OfJet, Role::Free),
        _ => Roles::of(Role::Never, Role::Never),
    }
}

// The role of operand k of a kind.
fn role_at(kind: u8, k: usize) -> Role
    ensures { result ≡ role_at kind k }
{
    let roles = roles_of(kind);
    if k == 0 { roles.first } else { roles.second }
}

// Operand k of node n.
fn operand(nodes: &[u8], n: u16, k: usize) -> u16
    ensures { result ≡ operand_at nodes.now n k }
{
    if k == 0 {
        left_at(nodes, n)
    } else {
        right_at(nodes, n)
    }
}

// Whether operand x of node n is what its role says.
#[tactic(auto, unfolding(crate::specs::Nodes::fits))]
fn fits_role(book: &Book, role: Role, n: u16, x: u16) -> bool
    requires { ValidIn book.now }
    ensures { result ≡ fits book.now role n x }
{
    match role {
        Role::Free => true,
        Role::Child => x < n,
        Role::OfType => is_of(book, TYPE, x),
        Role::OfValue => is_of(book, VALUE, x),
        Role::OfJet => x < 11,
        Role::Never => false,
    }
}

// The first of `count` nodes with an operand that is not what its role says, or `count`. Document 01 names the form: a scan with an inner
// scan, left by a label.
fn first_bad(book: &Book, nodes: &[u8], count: u16) -> u16
    requires { ValidIn book.now }
    ensures { result ≡ first_bad book.now nodes.now 0 count }
{
    let mut n: u16 = 0;
    'scan: loop {
        if n == count {
            break 'scan count;
        }
        let kind = kind_at(nodes, n);
        for k in 0..2usize {
            if !fits_role(book, role_at(kind, k), n, operand(nodes, n, k)) {
                break 'scan n;
            }
        }
        n += 1;
    }
}

// The check of a table of `count` nodes: where it is not well formed.
pub fn judge_table(book: &Book, nodes: &[u8], count: u32) -> Result<(), u16>
    requires { ValidIn book.now }
    ensures { result ≡ judge book.now nodes.now count }
{
    if count == 0 {
        return Err(0);
    }
    if count > 65535 {
        return Err(65535);
    }
    let present = nodes.len() / ENTRY;
    if present < (count as usize) {
        return Err(present as u16);
    }
    let bad = first_bad(book, nodes, count as u16);
    if bad == (count as u16) {
        Ok(())
    } else {
        Err(bad)
    }
}
