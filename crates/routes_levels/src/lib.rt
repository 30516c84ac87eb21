// The stops of a lane and their levels.
#![tactic(auto)]

pub mod finding;
pub mod laying;
pub mod levels;
pub mod pages;
pub mod stops;
pub mod windows;
