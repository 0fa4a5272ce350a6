// Number 11 and the answer, reckoned before a byte is written.
#![tactic(auto)]

pub mod reckon;
