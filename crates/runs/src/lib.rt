// Whole runs of a book: any list of calls on a new one, what they leave, how the files of two such lists compare, and revisions opened alone.
#![tactic(auto)]

pub mod alone;
pub mod close;
pub mod compare;
pub mod outcome;
mod step;
pub mod work;
