// Balanced trees: the split of a row's length, and the place of a number's top one bit.
#![tactic(auto)]

ghost use Rattle.std.specs.Prelude.{◌≡◌, ◌<◌, ◌≤◌};
ghost use Rattle.array.specs.Split.{Split, top_of};

// The left part of n elements, n minus half the least power of two not below n (the original's btree_split_index). That half is
// the highest power below n, which the leading zeros of n - 1 tell.
#[tactic(auto, using(crate::proofs::Places::half_within, crate::proofs::Places::half_leaves))]
pub fn split(n: u32) -> u32
    requires { (2 ≤ n) × (n ≤ 256) }
    ensures { Split n result }
{
    n - (1 << (31 - u32::leading_zeros(n - 1)))
}

// The place of the top one bit, from 0. Document 01 names leading zeros, for this and for the split.
#[tactic(auto, using(crate::proofs::Places::top_zeros))]
pub fn top(n: u32) -> u32
    requires { 0 < n }
    ensures { result ≡ top_of n }
{
    31 - u32::leading_zeros(n)
}
