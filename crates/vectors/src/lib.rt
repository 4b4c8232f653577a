// What the programs share that replay vectors: numbers in bytes, tables held against what is due, and the verdict.
#![tactic(auto)]

ghost use Rattle.std.specs.Prelude.{ℕ, ◌≡◌, ◌≤◌, Bool, true, ◌+◌, ◌*◌, List, ◌++◌, length, codes, Option, IfOk, OnOk};
ghost use Rattle.std.specs.List.{FoldsTo};
ghost use Rattle.std.specs.Io.KnownBytes.{Appends};
ghost use Rattle.console.specs.Lines.{count_line};
ghost use Rattle.vectors.specs.Books.{BookTurn, IsJudged, IsVerdict, due_in, size_in};
ghost use Rattle.vectors.specs.Due.{is_due};
ghost use Rattle.vectors.specs.Replayed.{Replayed, Stops, Turn};
ghost use Rattle.vectors.specs.Tables.{Alike, AllFrom};

use book::fault::{Numbers, Refusal, fault_number};
use console::read_full;
use std::io;
use std::io::{Read, Write};

// A number of two bytes, low first.
pub fn low_first(a: u8, b: u8) -> u16
    ensures { result ≡ a + 256 * b }
{
    u16::from_le_bytes([a, b])
}

// A number of three bytes, low first.
pub fn size_of(a: u8, b: u8, c: u8) -> usize
    ensures { result ≡ a + 256 * b + 65536 * c }
{
    u32::from_le_bytes([a, b, c, 0]) as usize
}

// Whether a table begins with these bytes.
pub fn begins_with(table: &[u8], due: &[u8]) -> bool
    ensures begins { result ≡ true → Alike table.now due.now (length due.now) }
    ensures fits { result ≡ true → length due.now ≤ length table.now }
    ensures seen { length due.now ≤ length table.now → Alike table.now due.now (length due.now) → result ≡ true }
{
    table.starts_with(due)
}

// Whether a table is zero from a place on.
pub fn is_zero_from(table: &[u8], from: usize) -> bool
    ensures zero { result ≡ true → AllFrom 0 table.now from (length table.now) }
    ensures seen { AllFrom 0 table.now from (length table.now) → result ≡ true }
{
    table.iter().skip(from).all(|byte| *byte == 0)
}

// Bytes that no call leaves, so that each must be written.
pub fn fill(table: &mut [u8])
    ensures { AllFrom 165 table.new 0 (length table.old) }
{
    table.fill(165);
}

// A vector whose answer was wrong.
pub fn print_wrong<W: Write>(out: &mut W, i: u64) -> io::Result<()>
    ensures { OnOk result (Appends (W.contents out.old) (W.contents out.new) (count_line (codes "wrong") i)) }
{
    console::print_count(out, b"wrong", i)
}

// How many vectors there were, and how many answers were wrong.
pub fn print_totals<W: Write>(out: &mut W, all: u64, wrong: u64) -> io::Result<()>
    ensures { OnOk result (Appends (W.contents out.old) (W.contents out.new) (count_line (codes "vectors") all ++ count_line (codes "wrong") wrong)) }
{
    console::print_count(out, b"vectors", all)?;
    console::print_count(out, b"wrong", wrong)
}

// Whether an answer is the one that is due: a success by its count, a refusal by its number and place. Not `numbers_of(answer) == due`:
// the place of a success and the count of a refusal are not looked at.
pub fn is_due(answer: Result<u16, Refusal>, due: Numbers) -> bool
    ensures { result ≡ is_due answer due }
{
    match answer {
        Ok(count) => due.number == 0 && due.count == count,
        Err(why) => due.number == fault_number(why.fault) && due.place == why.place,
    }
}

// At most so many vectors of a stream are replayed.
const MOST: u64 = 1_000_000;

// Replays a stream of vectors, each behind a head of N bytes, up to the stream's end. Prints which answers were wrong, how many vectors
// there were, and how many were wrong. Each verdict is that of a call, in the order of the calls.
pub fn replay<
    const N: usize,
    H: From<[u8; N]> + Drop,
    R: Read,
    W: Write,
    F: FnMut(&mut R, H) -> io::Result<bool>,
>(input: &mut R, out: &mut W, mut is_next_right: F) -> io::Result<()>
    requires head_fits { N ≤ 256 }
    requires callable { F.IsAlwaysCallable is_next_right }
    ensures { OnOk result ((vs : List Bool) × Replayed vs (W.contents out.old) (W.contents out.new)
        × ((last : F) × (rest : Option (List ℕ))
        × FoldsTo (Turn N (λ x. R.remaining x.now) H.from_gives F.step) (is_next_right, R.remaining input.old) vs (last, rest)
        × Stops N vs rest (R.remaining input.new))) }
{
    let mut head = [0u8; N];
    let mut all = 0;
    let mut wrong = 0;
    for i in 0..MOST {
        if read_full(input, &mut head)? < N {
            break;
        }
        if !is_next_right(input, H::from(head))? {
            print_wrong(out, i)?;
            wrong += 1;
        }
        all = i + 1;
    }
    print_totals(out, all, wrong)
}

// Room for a book that is too long by far.
const ROOM: usize = 131072;

// What stands before a book: the answer that is due, and the book's length.
#[derive(Clone, Copy)]
struct Head {
    due: Numbers,
    size: usize,
}

impl From<[u8; 8]> for Head {
    // What is due, and the length, as the bytes say.
    ghost from_gives = { λ bytes h. (h.due ≡ due_in bytes) × (h.size ≡ size_in bytes) };

    fn from(head: [u8; 8]) -> Head {
        Head {
            due: Numbers {
                number: head[0],
                place: low_first(head[1], head[2]),
                count: low_first(head[3], head[4]),
            },
            size: size_of(head[5], head[6], head[7]),
        }
    }
}

// What comes next, into all of a part, and whether what is made of it is right.
fn is_read_right<R: Read, F: Fn(&[u8], Numbers) -> bool>(
    input: &mut R,
    due: Numbers,
    book: &mut [u8],
    is_right: &F,
) -> io::Result<bool>
    requires { (f : _) (x1 : _) (x2 : _) → F.pre f x1 x2 }
    ensures { IfOk result (λ v. IsJudged (F.post is_right.now) due (length book.old) (R.remaining input.old) v (R.remaining input.new)) }
{
    let n = read_full(input, book)?;
    Ok(is_right(&book[..n], due))
}

// The next book, and whether what is made of it is right. One that has no room is wrong.
fn is_next_book_right<R: Read, F: Fn(&[u8], Numbers) -> bool>(
    input: &mut R,
    head: Head,
    is_right: &F,
) -> io::Result<bool>
    requires { (f : _) (x1 : _) (x2 : _) → F.pre f x1 x2 }
    ensures { IfOk result (λ v. IsVerdict (F.post is_right.now) head.due head.size (R.remaining input.old) v (R.remaining input.new)) }
{
    let mut buffer = [0u8; ROOM];
    if ROOM < head.size {
        return Ok(false);
    }
    is_read_right(input, head.due, &mut buffer[..head.size], is_right)
}

// Replays a stream of books. Each stands behind the number (one byte), the place and the count that are due (two bytes each, low
// first), and its length (three bytes, low first). Each verdict is what `is_right` says of the book and of what is due; a book that has
// no room is wrong.
pub fn replay_books<R: Read, W: Write, F: Fn(&[u8], Numbers) -> bool>(
    input: &mut R,
    out: &mut W,
    is_right: F,
) -> io::Result<()>
    requires { (f : _) (x1 : _) (x2 : _) → F.pre f x1 x2 }
    ensures { OnOk result ((vs : List Bool) × Replayed vs (W.contents out.old) (W.contents out.new)
        × ((rest : Option (List ℕ)) × FoldsTo (BookTurn (F.post is_right)) (R.remaining input.old) vs rest
        × Stops 8 vs rest (R.remaining input.new))) }
{
    replay(
        input,
        out,
        |input: &mut R, head: Head| is_next_book_right(input, head, &is_right),
    )
}
