// An update as a text that a person can write: reading it, one change after the other or as a whole, and printing it.
#![tactic(auto)]

pub mod change;
mod cursor;
pub mod dots;
pub mod error;
pub mod found;
mod head;
mod line;
pub mod printing;
pub mod reader;
pub mod reading;
pub mod script;
pub mod theorems;
