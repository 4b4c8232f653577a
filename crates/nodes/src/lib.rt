// What a run is given: a book's records, and a table of nodes that is checked.
#![tactic(auto)]

pub mod check;
pub mod given;
