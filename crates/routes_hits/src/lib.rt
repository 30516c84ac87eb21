// Hits: the rerouters and bus wires of a sheet's plan that lie under a box of a page.
#![tactic(auto)]

pub mod boxes;
pub mod find;
pub mod list;
