// Proofs alone: what the marker acts of the grammar leave.
#![tactic(auto)]
