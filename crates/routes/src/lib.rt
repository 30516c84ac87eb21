// The bus in its buffers: rerouters and bus wires, each placed by one operation; the tables of the laid taps, what a laid tap begins, and a stop's level and row.
// The rules from stops to the finished plan, and demand 3, stand in `specs/`; the crates above have their code.
#![tactic(auto)]

pub mod bus;
pub mod laid;
pub mod levels;
pub mod news;
