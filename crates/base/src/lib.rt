// What every layer uses: numbers by name, rows by type, refusals, ids apart from numbers, one sort for rows and for keys, and runs of a key, counted or filled as one goes.
#![tactic(auto)]

mod copying;
pub mod digits;
pub mod growing;
pub mod ids;
pub mod keys;
pub mod numbers;
pub mod refusal;
pub mod rows;
pub mod runs;
pub mod sort;
