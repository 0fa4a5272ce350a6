// The text of the comparisons' reasons.
#![tactic(auto)]

pub mod explain;
