// `resolve_deferred` of the Rust: a column's three sets against its final bounds.
#![tactic(auto)]

pub mod resolve;
