// `lay_mini_bus` on tables: the wires that turn, and a corner for each.
#![tactic(auto)]

pub mod decide;
pub mod find;
pub mod items;
pub mod ports;
pub mod turn;
pub mod write;
