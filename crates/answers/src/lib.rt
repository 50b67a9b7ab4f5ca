// Proofs alone: when a parse says which number, that it says nothing else, and worked parses.
#![tactic(auto)]
