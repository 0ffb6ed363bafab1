// What the command line tool for records computes.
#![tactic(auto)]

pub mod advice;
pub mod command;
pub mod differences;
pub mod excerpt;
pub mod number;
pub mod runs;
pub mod theorems;
pub mod trouble;
