// READ and CHECK for C: what the judges of compare/ call. The plug-in's host has no need of it, and does not link it.
#![tactic(auto)]

ghost use Rattle.std.specs.Prelude.{◌≡◌};
ghost use Rattle.book.specs.Read.{read_of};
ghost use Rattle.typing.specs.Whole.{check_of};
ghost use Rattle.probe.specs.Outcome.{outcome_of};

use book::fault::{Refusal, fault_number};
use book::read::read;
use typing::check;

// An answer in numbers, for which `host` has a struct of its own: the C interface needs both.
#[repr(C)]
#[derive(Clone, Copy)]
pub struct Outcome {
    pub number: u32,
    pub place: u32,
    pub count: u32,
}

fn outcome_of(answer: Result<u16, Refusal>) -> Outcome
    ensures { result ≡ outcome_of answer }
{
    match answer {
        Ok(records) => Outcome {
            number: 0,
            place: 0,
            count: records as u32,
        },
        Err(why) => Outcome {
            number: fault_number(why.fault) as u32,
            place: why.place as u32,
            count: 0,
        },
    }
}

#[unsafe(no_mangle)]
pub extern "C" fn simplicityhl_read(book: &[u8]) -> Outcome
    ensures { result ≡ outcome_of (read_of book.now) }
{
    outcome_of(read(book))
}

#[unsafe(no_mangle)]
pub extern "C" fn simplicityhl_check(book: &[u8]) -> Outcome
    ensures { result ≡ outcome_of (check_of book.now) }
{
    outcome_of(check(book))
}
