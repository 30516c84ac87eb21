// The columns are asked first: which heads and links are placed, and what is then asked of rows.
#![tactic(auto)]

pub mod claims;
pub mod columns;
