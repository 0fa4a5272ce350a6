// Reading a screen's conjuncts, each step equal to its definition in crate merge:
// classify: reading one conjunct (`classify_into_constraints`); those below it are crates
// `classify_operands` and `read_operands`.
#![tactic(auto)]

pub mod classify;
