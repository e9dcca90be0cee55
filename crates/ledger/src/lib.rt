// This crate has no code: which ticks an amount that comes back was run in is a definition (specs/), and that it agrees with the account a law (proofs/).

#![tactic(auto)]
