// What a book needs to know so that its tables stay those of its file: each function here carries a statement in its contract.
#![tactic(auto)]

pub mod answering;
pub mod committing;
pub mod delivering;
pub mod driving;
pub mod standing;
pub mod staying;
pub mod telling;
