// `lay_bus`: the lanes of a sheet, laid in the gutters of its pages.
#![tactic(auto)]

pub mod bus;
pub mod lay;
pub mod laying;
