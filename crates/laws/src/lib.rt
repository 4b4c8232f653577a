// Definitions and laws on tables, rows and numbers that several crates cite. No function.
#![tactic(auto)]
