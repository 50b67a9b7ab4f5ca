// Proofs alone: laws of tests and choices that every crate uses.
#![tactic(auto)]
