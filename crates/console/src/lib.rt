// What the programs read, a part of their input, and what they print: a count, or a refusal.
#![tactic(auto)]

ghost use Rattle.std.specs.Prelude.{ℕ, ◌≡◌, ◌≤◌, ◌<◌, List, length, take, IfOk, OnOk, IfSome, Result, Err};
ghost use Rattle.std.specs.Fn.{FnReturnsAt};
ghost use Rattle.std.specs.Io.KnownBytes.{Appends, Consumes, IsAtEnd};
ghost use Rattle.book.specs.Faults.{refusal};
ghost use Rattle.book.specs.declared.fault.Fault.TheVariants.{Size};
ghost use Rattle.book.specs.declared.fault.Refusal.{Refusal};
ghost use Rattle.console.specs.Lines.{answer_line, count_line, refusal_line};

use book::fault::{Refusal, fault_number};
use std::io;
use std::io::{Read, Write};

// Fills a part with what comes next in the input, and answers how many bytes came: fewer than there is room for only where the input
// ended.
pub fn read_full<R: Read>(input: &mut R, part: &mut [u8]) -> io::Result<usize>
    ensures fits { IfOk result (λ n. n ≤ length part.new) }
    ensures bytes { IfOk result (λ n. Consumes (R.remaining input.old) (R.remaining input.new) (take n part.new)) }
    ensures end { IfOk result (λ n. n < length part.new → IsAtEnd (R.remaining input.new)) }
{
    let mut done = 0;
    // Not a `for`: a read brings as many bytes as it likes.
    while done < part.len() {
        let more = input.read(&mut part[done..])?;
        if more == 0 {
            break;
        }
        done += more;
    }
    Ok(done)
}

// A word and a number, on a line of their own.
pub fn print_count<W: Write>(out: &mut W, word: &[u8], n: u64) -> io::Result<()>
    ensures { OnOk result (Appends (W.contents out.old) (W.contents out.new) (count_line word.now n)) }
{
    out.write_all(word)?;
    writeln!(out, " {n}")
}

// `refused`, the fault's number, `at`, the place. No `impl Display`: no contract says what `fmt` writes, and this call promises its bytes.
pub fn print_refusal<W: Write>(out: &mut W, why: Refusal) -> io::Result<()>
    ensures { OnOk result (Appends (W.contents out.old) (W.contents out.new) (refusal_line why)) }
{
    let number = fault_number(why.fault);
    write!(out, "refused {number}")?;
    print_count(out, b" at", why.place as u64)
}

// A word and a count, or a refusal.
pub fn print_answer<W: Write>(
    out: &mut W,
    word: &[u8],
    answer: Result<u16, Refusal>,
) -> io::Result<()>
    ensures { OnOk result (Appends (W.contents out.old) (W.contents out.new) (answer_line word.now answer)) }
{
    match answer {
        Ok(count) => print_count(out, word, count as u64),
        Err(why) => print_refusal(out, why),
    }
}

// What a call answers to the whole input, printed. The part has room for a byte more than a book may have: the call refuses a longer
// input as such.
pub fn answer<R: Read, W: Write, F: Fn(&[u8]) -> Result<u16, Refusal>>(
    input: &mut R,
    out: &mut W,
    part: &mut [u8],
    word: &[u8],
    call: F,
) -> io::Result<()>
    requires room { 65535 < length part.old }
    requires callable { F.IsAlwaysCallable call }
    ensures { (f : List ℕ → Result ℕ Refusal)
        → ((b : List ℕ) (a : Result ℕ Refusal) → FnReturnsAt F.Fn call b a → a ≡ f b)
        → ((b : List ℕ) → 65535 < length b → f b ≡ Err (refusal Size 0))
        → OnOk result (IfSome (R.remaining input.old) (λ book. Appends (W.contents out.old) (W.contents out.new) (answer_line word.now (f book)))) }
{
    let n = read_full(input, part)?;
    print_answer(out, word, call(&part[..n]))
}
