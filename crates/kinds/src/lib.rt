// The kinds of tokens and nodes, and sets of kinds: src/syntax_kind.rs, syntax_kind/syntax_kind_enum.rs and token_set.rs.
#![tactic(auto)]

pub mod listings;
pub mod messages;
pub mod sets;
pub mod syntax_kind;
pub mod syntax_kind_enum;
pub mod token_set;
