// Every bus wire between two rerouters runs straight. No code stands here: `specs/` says it of a plan, and `proofs/` has the theorems.
#![tactic(auto)]
