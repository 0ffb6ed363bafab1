// The law over whole runs of a book, and what follows from it: each function here carries a statement in its contract.
#![tactic(auto)]

pub mod consequences;
pub mod example;
pub mod runs;
pub mod updates;
