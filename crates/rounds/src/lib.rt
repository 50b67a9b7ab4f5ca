// Proofs alone: no loop of the grammar's definition ends because its rounds run out.
#![tactic(auto)]
