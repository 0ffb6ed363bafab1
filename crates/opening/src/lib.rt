// The readers of a cross-reference section over bytes in memory: its lines, its entries, its tail, the whole of it, and what its trailer says. The
// memory for its rows is taken once.
// A place that a reader answers counts in the bytes that it was given, as in `lexer`.
#![tactic(auto)]

pub mod bytes;
pub mod entry;
pub mod header;
pub mod last;
pub mod lines;
mod numbers;
pub mod part;
pub mod placed;
pub mod rows;
pub mod section;
mod subsections;
pub mod told;
pub mod trailer;
pub mod view;
