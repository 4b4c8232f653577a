// The lowering of books: the original's compile.
#![tactic(auto)]

ghost use Rattle.std.specs.Prelude.{◌≡◌, length, replicate};
ghost use Rattle.named.specs.Cut.{cut, room};
ghost use Rattle.book.specs.Format.{EXPRESSION};
ghost use Rattle.book.specs.Stands.{Stands};
ghost use Rattle.compile.specs.Whole.{trace_of, lower_of, table_of, Lowered};

use crate::cycle::Lowering;
use book::fault::Refusal;
use book::read::index_book;
use book::record::Book;
use named::node::Nodes;
use named::table::clear;
use scope_bindings::{IGNORED, ScopeBindings};

mod cycle;

// LOWER: a book's nodes into a lent table, with or without debug symbols; the answer is how many there are. Zeros follow the nodes; after
// a refusal the table is zero.
pub fn lower(book: &[u8], symbols: bool, nodes: &mut [u8]) -> Result<u16, Refusal>
    ensures { (result ≡ lower_of book.now symbols (length nodes.old)) × (nodes.new ≡ table_of book.now symbols (length nodes.old)) }
{
    clear(nodes);
    let indexed = index_book(book);
    let records = indexed.answer?;
    let book = Book::new(book, &indexed.index, records);
    lower_root(&book, symbols, records - 1, nodes)
}

// The root expression, into a clear table.
fn lower_root(book: &Book, symbols: bool, r: u16, nodes: &mut [u8]) -> Result<u16, Refusal>
    requires stands { Stands book.now.bytes book.now.index r EXPRESSION }
    requires nodes_is { nodes.old ≡ replicate (length nodes.old) 0 }
    ensures { Lowered (cut (room (length nodes.old)) (trace_of symbols book.now.bytes book.now.index r)) (length nodes.old) result nodes.new }
{
    let scope = ScopeBindings::from_root(IGNORED);
    let mut table = Nodes::new(nodes);
    let lowering = Lowering { book, symbols };
    match lowering.expression(r, &scope, &mut table) {
        Ok(_) => Ok(table.next),
        Err(refusal) => {
            clear(nodes);
            Err(refusal)
        }
    }
}
