// The book: its format, READ, the index of its records, and reading a field.
#![tactic(auto)]

pub mod fault;
pub mod format;
pub mod read;
pub mod record;
pub mod word;
