// Proofs alone: what is proved of lexing beside its contract: one reading of a text, the conditions of a refusal, kinds and joint bits, and the places of the tokens.
#![tactic(auto)]
