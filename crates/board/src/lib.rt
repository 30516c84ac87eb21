// Ids and chips of a board, its sections, and what turns it away (E4 to E6). The rules up to the lanes stand in `specs/`; the crates above have their code.
#![tactic(auto)]

pub mod ids;
pub mod refusals;
pub mod sections;
pub mod walks;
