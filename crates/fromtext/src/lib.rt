// Proofs alone: what lexing and parsing together say and leave.
#![tactic(auto)]
