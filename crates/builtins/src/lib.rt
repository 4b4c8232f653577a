#![tactic(auto)]

pub mod array_fold;
pub mod raw_hash;
