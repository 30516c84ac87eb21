// Corners decided before they are written, row by row. No code stands here: `specs/` says it, and `proofs/` has the theorems.
#![tactic(auto)]
