// What is asked of rows, answered row by row.
#![tactic(auto)]

pub mod beside;
pub mod items;
