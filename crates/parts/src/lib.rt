// What a record's fields say by its mark, and what is stored around its expressions.
#![tactic(auto)]

pub mod part;
pub mod view;
