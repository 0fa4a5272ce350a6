// The values of the pool in order: made once for a chain, then asked, by halving, whether a list has a value.
#![tactic(auto)]

pub mod asking;
pub mod making;
