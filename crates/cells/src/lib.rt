// A run's values in a lent table of cells, and the jets over them.
#![tactic(auto)]

pub mod jets;
pub mod table;
