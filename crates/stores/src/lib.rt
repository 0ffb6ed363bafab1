// Stores of bytes: one in a given memory, and one over another store.
#![tactic(auto)]

pub mod flat;
pub mod overlay;
mod row;
pub mod store;
