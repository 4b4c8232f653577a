// Jets over cells: words are read from cells, and stored as cells.
ghost use Rattle.std.specs.Prelude.{◌≡◌, ℕ, suc, ◌^◌, ◌<◌, ◌≤◌};
ghost use Rattle.simplicity.specs.Jets.{jet_on, verify, eq8, add8, on_word, on_words};
ghost use Rattle.simplicity.specs.Values.{pair, bit, word};
ghost use Rattle.cells.specs.Cells.{shape_at, store_value};
ghost use Rattle.cells.specs.Entries.{left_at};
ghost use Rattle.cells.specs.Keeping.{Keeps, Worded, Paired, Delivers, unit_word, size_of};

use crate::table::{Kept, LEFT, PAIR, RIGHT, UNIT, from, keep, kind_at, left_at, right_at};
use jet::jet_at;
use std::marker::PhantomData;

// Why a jet gives no cells: it failed, its value has another shape, or it is not known.
#[derive(Clone, Copy, PartialEq, Eq)]
pub enum JetEnd {
    Failed,
    Stuck,
    Unknown,
}

// Words of one width. A width is a type and not a number, so that each has code of its own: a function that calls itself is not inlined,
// and a run with many jets took half as long again. No word here is wider than a byte, so each promise asks that k is at most 3: a bound on
// a number, for which a type would have to be built at each call.
trait Width {
    // A word has 2 ^ k bits.
    ghost k: { ℕ };

    // How many numbers a word has, for the halves of at most eight bits.
    fn span() -> u8
        requires { k < 3 }
        ensures { result ≡ 2 ^ (2 ^ k) };

    // The word at cell x.
    fn at(cells: &[u8], x: u16) -> Option<u8>
        requires { k ≤ 3 }
        ensures { Worded cells.now k x result };

    // Stores the cells of the number v as a word.
    fn store(cells: &mut [u8], p: Kept, v: u8) -> Kept
        requires { k ≤ 3 }
        ensures { Keeps cells.old p (λ n. store_value n (word k v)) result cells.new };
}

// A bit.
struct Bit;

// Twice a width: a pair of words, the high half left.
struct Twice<H>(PhantomData<H>);

type TwoBits = Twice<Bit>;

type FourBits = Twice<TwoBits>;

type Byte = Twice<FourBits>;

// The bit n, if the side at cell x holds the unit.
#[tactic(auto, using(crate::proofs::Words::side_unit, crate::proofs::Words::side_other))]
fn bit_of(cells: &[u8], x: u16, n: u8) -> Option<u8>
    ensures { result ≡ unit_word cells.now (left_at cells.now x) n }
{
    if kind_at(cells, left_at(cells, x)) == UNIT {
        Some(n)
    } else {
        None
    }
}

// Stores a bit's cells.
fn keep_bit(cells: &mut [u8], p: Kept, set: bool) -> Kept
    ensures { Keeps cells.old p (λ n. store_value n (bit set)) result cells.new }
{
    let unit = keep(cells, p, UNIT, 0, 0);
    if set {
        keep(cells, unit, RIGHT, unit.cell, 0)
    } else {
        keep(cells, unit, LEFT, unit.cell, 0)
    }
}

impl Width for Bit {
    ghost k = { 0 };

    fn span() -> u8 {
        2
    }

    #[tactic(auto, using(crate::proofs::Words::bit_none))]
    fn at(cells: &[u8], x: u16) -> Option<u8> {
        match kind_at(cells, x) {
            LEFT => bit_of(cells, x, 0),
            RIGHT => bit_of(cells, x, 1),
            _ => None,
        }
    }

    fn store(cells: &mut [u8], p: Kept, v: u8) -> Kept {
        keep_bit(cells, p, v % 2 == 1)
    }
}

impl<H: Width> Width for Twice<H> {
    ghost k = { suc H.k };

    #[tactic(auto, using(crate::proofs::Words::twice_span, crate::proofs::Words::span_fits))]
    fn span() -> u8 {
        let half = H::span();
        half * half
    }

    #[tactic(auto, using(crate::proofs::Words::word_left, crate::proofs::Words::word_right, crate::proofs::Words::halves_fit))]
    fn at(cells: &[u8], x: u16) -> Option<u8> {
        if kind_at(cells, x) != PAIR {
            return None;
        }
        let high = H::at(cells, left_at(cells, x))?;
        let low = H::at(cells, right_at(cells, x))?;
        Some(high * H::span() + low)
    }

    fn store(cells: &mut [u8], p: Kept, v: u8) -> Kept {
        let half = H::span();
        let high = H::store(cells, p, v / half);
        let low = H::store(cells, high, v % half);
        keep(cells, low, PAIR, high.cell, low.cell)
    }
}

// The word of 2 ^ k bits at cell x.
#[tactic(auto, using(crate::proofs::Words::word_wide))]
fn word_at(cells: &[u8], x: u16, k: usize) -> Option<u8>
    requires { k ≤ 3 }
    ensures { Worded cells.now k x result }
{
    match k {
        0 => Bit::at(cells, x),
        1 => TwoBits::at(cells, x),
        2 => FourBits::at(cells, x),
        _ => Byte::at(cells, x),
    }
}

// The two words of 2 ^ k bits in the pair at cell x.
#[tactic(auto, using(crate::proofs::Words::words_other, crate::proofs::Words::words_left, crate::proofs::Words::words_both))]
fn words_at(cells: &[u8], x: u16, k: usize) -> Option<(u8, u8)>
    requires { k ≤ 3 }
    ensures { Paired cells.now k x result }
{
    if kind_at(cells, x) != PAIR {
        return None;
    }
    let a = word_at(cells, left_at(cells, x), k)?;
    let b = word_at(cells, right_at(cells, x), k)?;
    Some((a, b))
}

// Stores the cells of the number v as a word of 2 ^ k bits. By number as `word_at`, but that one reads and this one stores: they have no
// more in common than the four widths.
fn keep_word(cells: &mut [u8], p: Kept, k: usize, v: u8) -> Kept
    requires { k ≤ 3 }
    ensures { Keeps cells.old p (λ n. store_value n (word k v)) result cells.new }
{
    match k {
        0 => Bit::store(cells, p, v),
        1 => TwoBits::store(cells, p, v),
        2 => FourBits::store(cells, p, v),
        _ => Byte::store(cells, p, v),
    }
}

// The arguments of jets 0 to 2 are words of 2 ^ k bits: the jet's width over the number of its arguments. The leading zeros tell k, as
// document 01 has it for powers of two.
#[tactic(auto, using(crate::proofs::Words::some_arguments, crate::proofs::Words::few_zeros, crate::proofs::Words::sizes))]
fn argument_size(j: u16) -> usize
    requires { j < 3 }
    ensures { result ≡ size_of j }
{
    let jet = jet_at(j as usize);
    15 - (u16::leading_zeros(jet.input / jet.arguments) as usize)
}

// verify: fails on false, and gives a new unit.
fn verify_jet(cells: &mut [u8], used: u16, x: u16) -> Result<Kept, JetEnd>
    ensures { Delivers cells.old used (on_word (shape_at cells.old) 0 x verify) result cells.new }
{
    let n = word_at(cells, x, argument_size(0)).ok_or(JetEnd::Stuck)?;
    if n == 1 {
        Ok(keep(cells, from(used), UNIT, 0, 0))
    } else {
        Err(JetEnd::Failed)
    }
}

// eq_8: whether two words are equal.
fn eq_8(cells: &mut [u8], used: u16, x: u16) -> Result<Kept, JetEnd>
    ensures { Delivers cells.old used (on_words (shape_at cells.old) 3 x eq8) result cells.new }
{
    let (a, b) = words_at(cells, x, argument_size(1)).ok_or(JetEnd::Stuck)?;
    Ok(keep_bit(cells, from(used), a == b))
}

// The cells of a carry and a sum.
fn keep_sum(cells: &mut [u8], p: Kept, carry: bool, sum: u8, k: usize) -> Kept
    requires { k ≤ 3 }
    ensures { Keeps cells.old p (λ n. store_value n (pair (bit carry) (word k sum))) result cells.new }
{
    let high = keep_bit(cells, p, carry);
    let low = keep_word(cells, high, k, sum);
    keep(cells, low, PAIR, high.cell, low.cell)
}

// add_8: the carry beside the sum, which is less than either part where it wrapped around.
fn add_8(cells: &mut [u8], used: u16, x: u16) -> Result<Kept, JetEnd>
    ensures { Delivers cells.old used (on_words (shape_at cells.old) 3 x add8) result cells.new }
{
    let k = argument_size(2);
    let (a, b) = words_at(cells, x, k).ok_or(JetEnd::Stuck)?;
    let sum = a.wrapping_add(b);
    Ok(keep_sum(cells, from(used), sum < a, sum, k))
}

// What jet j makes of cell x.
#[tactic(auto, using(crate::proofs::Deliveries::jet_verify, crate::proofs::Deliveries::jet_eq, crate::proofs::Deliveries::jet_add, crate::proofs::Deliveries::jet_missing))]
pub fn run_jet(cells: &mut [u8], used: u16, j: u16, x: u16) -> Result<Kept, JetEnd>
    ensures { Delivers cells.old used (jet_on (shape_at cells.old) j x) result cells.new }
{
    match j {
        0 => verify_jet(cells, used, x),
        1 => eq_8(cells, used, x),
        2 => add_8(cells, used, x),
        _ => Err(JetEnd::Unknown),
    }
}
