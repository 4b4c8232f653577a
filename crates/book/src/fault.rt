// Refusals by number. A call's answer is a Result: its error nests the fault beside its place.
ghost use Rattle.std.specs.Prelude.{◌≡◌};
ghost use Rattle.book.specs.Faults.{fault_number, numbers_of};

// What was wrong: document 01, Refusals by number, in its order. TYPE is `Ty`, since `Type` is a word of
// the language of the proofs.
#[derive(Clone, Copy, PartialEq, Eq)]
pub enum Fault {
    Size = 1,
    Records,
    Cut,
    Mark,
    Number,
    Reference,
    Twice,
    Depth,
    Loose,
    Undefined,
    Room,
    Bindings,
    Ty,
    Name,
    Nodes,
    Steep,
    Witness,
    Cells,
    Stuck,
    Jet,
}

// What was wrong, and where.
#[derive(Clone, Copy, PartialEq, Eq)]
pub struct Refusal {
    pub fault: Fault,
    pub place: u16,
}

// A fault's number, from 1 to 20.
pub fn fault_number(fault: Fault) -> u8
    ensures { result ≡ fault_number fault }
{
    fault as u8
}

// An answer as document 01 gives it: number, place and count.
#[derive(Clone, Copy, PartialEq, Eq)]
pub struct Numbers {
    pub number: u8,
    pub place: u16,
    pub count: u16,
}

// A success is number 0 at place 0 with its count; a refusal has count 0.
pub fn numbers_of(answer: Result<u16, Refusal>) -> Numbers
    ensures { result ≡ numbers_of answer }
{
    match answer {
        Ok(count) => Numbers {
            number: 0,
            place: 0,
            count,
        },
        Err(why) => Numbers {
            number: fault_number(why.fault),
            place: why.place,
            count: 0,
        },
    }
}
