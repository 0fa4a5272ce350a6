// The three truths of ISO/IEC 9075, and their connectives as tables.
#![tactic(auto)]

pub mod logic;
