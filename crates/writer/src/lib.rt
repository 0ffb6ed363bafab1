// The open update in memory, what is decided of its changes, and the bytes of a whole update, written into memory that was taken before.
#![tactic(auto)]

pub mod change;
pub mod decisions;
pub mod draft;
pub mod entry;
pub mod held;
mod listed;
pub mod newest;
mod numbers;
pub mod parts;
mod plan;
mod runs;
mod table;
pub mod ten_digits;
mod trailer;
pub mod update;
