// A book: the revisions of a record that lies in a store, and the updates by which it is changed.
#![tactic(auto)]

pub mod book;
pub mod call;
mod copies;
mod parts;
mod rows;
pub mod slip;
