// Proofs alone: the lexical rules, what the tokens of a text are, and a table of states that is held to the rules.
#![tactic(auto)]
