// The vocabulary of refusals, shared by every layer.
#![tactic(auto)]

pub mod fault;
pub mod layer;
pub mod reason;
