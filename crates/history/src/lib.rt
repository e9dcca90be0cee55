// This crate has no code: the history of a thread is a definition (specs/), and what its budget is when seen from there a law (proofs/).

#![tactic(auto)]
