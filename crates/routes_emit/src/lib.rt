// Rerouters and bus wires: the lanes emitted from their stops, by the answers to what was asked of columns and rows. `answers` reads a tap's answers, `chain`
// puts a rerouter on the bus, `group` and `row` begin a group and a row, `serve` delivers, `tap` does these for one tap, and `walk` goes over all taps.
#![tactic(auto)]

pub mod answers;
pub mod chain;
pub mod group;
pub mod row;
pub mod serve;
pub mod tap;
pub mod walk;
