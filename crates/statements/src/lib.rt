// Statements: the productions of src/grammar/items.rs and params.rs that call nothing recursive.
#![tactic(auto)]

pub mod items;
pub mod params;
