// What a user of the calls may rely on. No code stands here: `specs/` says it, of the rows that the buffers hold, and `proofs/` has the theorems.
#![tactic(auto)]
