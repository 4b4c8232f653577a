// What a program means, and that what LOWER made of it does that when RUN runs it. No function.
#![tactic(auto)]
