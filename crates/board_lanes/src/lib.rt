// The demands of a board's groups, and the lanes of its pages.
#![tactic(auto)]

pub mod demands;
pub mod needs;
