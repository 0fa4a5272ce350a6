// What a conjunct says, by its operator and its operands (`classify_comparison` of the Rust and those beside it).
#![tactic(auto)]

pub mod conjuncts;
