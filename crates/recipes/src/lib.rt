#![tactic(auto)]

pub mod calls;
pub mod for_while;
pub mod list_fold;
