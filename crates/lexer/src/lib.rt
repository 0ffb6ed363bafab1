// The readers of tokens over bytes in memory. None of them takes memory.
// A place that a reader answers counts in the bytes that it was given, and its contract says where in them it lies. An answer that held the bytes too
// would need a clause more: that they are the same bytes.
#![tactic(auto)]

pub mod bytes;
mod flaw;
mod head;
mod hex;
pub mod line;
mod literal;
pub mod name;
mod number;
pub mod reader;
mod reads;
mod run;
mod space;
pub mod token;
