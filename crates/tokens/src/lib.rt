// Tokens as text (docs/RULES.md, section 10), and the names of kinds, messages and refusals.
#![tactic(auto)]

mod names;
pub mod read;
pub mod table;
