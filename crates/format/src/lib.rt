// The format, the book and its account as definitions (specs/), and what they amount to: each function here carries a statement in its contract.
#![tactic(auto)]

pub mod worked;
