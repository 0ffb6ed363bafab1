// Cross-reference sections: those that are written read back, and reading one depends on its own bytes only. Each function here carries a statement in its contract.
#![tactic(auto)]

pub mod found;
pub mod own_bytes;
pub mod readback;
