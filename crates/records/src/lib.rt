// Opening a file that lies in a store: its chain of sections, and the table of each revision.
#![tactic(auto)]

mod chain;
mod check;
mod link;
mod listed;
pub mod open;
pub mod revision;
pub mod revision_tables;
mod root;
mod rows;
pub mod scratch;
mod section;
mod table;
pub mod trailer;
mod window;
