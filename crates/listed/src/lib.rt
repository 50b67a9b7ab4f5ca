// Proofs alone: what is proved of the check and of the resolution beside their contracts.
#![tactic(auto)]
