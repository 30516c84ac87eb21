// The calls for C and Rust, exported: each answer in numbers.
#![tactic(auto)]

pub mod answer_call;
pub mod bus_calls;
pub mod hits_call;
pub mod lane_call;
pub mod mini_call;
pub mod plan_call;
pub mod sheet_calls;
pub mod verdict;
