// The suppressed ports of a plan, written from the deliveries among its bus wires.
#![tactic(auto)]

pub mod settle;
