// The laid taps in order, as each walk over them reads them.
#![tactic(auto)]

pub mod taps;
