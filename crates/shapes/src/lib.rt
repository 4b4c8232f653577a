// Whether a declared type is the one that the declared types of its parts give.
#![tactic(auto)]

pub mod part;
pub mod whole;
