// What the tables, rows and updates of revisions amount to: each function here carries a statement in its contract.
#![tactic(auto)]

pub mod tables;
