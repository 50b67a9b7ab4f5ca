// Proofs alone: the token events of a run cover the tokens that it consumed, no kind that stands somewhere is refused with 8 when it is consumed, and small runs that the checker computes.
#![tactic(auto)]
