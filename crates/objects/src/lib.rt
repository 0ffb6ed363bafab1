// Readers of objects, dictionaries, streams and frames over bytes in memory. None of them takes memory.
// A place that a reader answers counts in the bytes that it was given, and its contract says where in them it lies. An answer that held the bytes too
// would need a clause more: that they are the same bytes.
#![tactic(auto)]

mod ahead;
pub mod body;
pub mod dictionary;
pub mod frame;
mod later;
pub mod object;
mod place;
mod read;
mod reading;
mod reference;
pub mod shape;
mod start;
mod stream;
pub mod theorems;
mod tokens;
