// Reads a book on standard input, and prints how many records it has, or its refusal.
#![tactic(auto)]

ghost use Rattle.std.specs.Prelude.{OnOk, IfSome};
ghost use Rattle.std.specs.Io.KnownBytes.{Appends};
ghost use Rattle.book.specs.Read.{read_of};
ghost use Rattle.readbook.specs.Shown.{shown};

use book::read::read;
use std::io;
use std::io::{Read, Write};

// One byte more than a book may have: a longer input is refused as such.
const ROOM: usize = 65536;

// READ's answer to the whole input.
fn answer<R: Read, W: Write>(input: &mut R, out: &mut W) -> io::Result<()>
    ensures { OnOk result (IfSome (R.remaining input.old) (λ book. Appends (W.contents out.old) (W.contents out.new) (shown (read_of book)))) }
{
    let mut buffer = [0u8; ROOM];
    console::answer(input, out, &mut buffer, b"records", read)
}

fn main(rt: HostRuntime) -> io::Result<()> {
    answer(&mut rt.stdin(), &mut rt.stdout())
}
