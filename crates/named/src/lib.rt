#![tactic(auto)]

pub mod build;
pub mod entry;
pub mod node;
pub mod table;
