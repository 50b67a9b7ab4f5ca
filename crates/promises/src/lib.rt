// Proofs alone: what is promised of a done parse.
#![tactic(auto)]
