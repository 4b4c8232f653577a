// Simplicity's types and values, as its public definition gives them. No function.
#![tactic(auto)]
