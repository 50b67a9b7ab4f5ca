// Expressions: the productions of src/grammar/expressions.rs and expressions/atom.rs that call nothing recursive.
#![tactic(auto)]

pub mod atom;
pub mod expressions;
