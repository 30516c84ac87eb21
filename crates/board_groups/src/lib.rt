// What is collected from a board: the rows of its pages, the ends of its wires, and the taps of its groups.
#![tactic(auto)]

pub mod anchors;
pub mod execs;
pub mod groups;
pub mod rows;
pub mod shares;
