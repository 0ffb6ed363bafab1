// The entries of cross-reference sections, the cells of a revision's table, and lists in memory that was taken once.
#![tactic(auto)]

pub mod cell;
pub mod entry;
pub mod reserved;
pub mod revision;
