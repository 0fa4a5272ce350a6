//! What is known of one column: `ColumnConstraints` of the Rust with all its methods, a value in and a value out.
//!
//! The data's way: the two bounds and the column that holds them (crate `column_constraints`), the numbers of the
//! conjuncts that stand for its three sets (crates `column_sets` and `column_changes`), merging across an equality
//! (`merging`), resolving against the final bounds (crate `resolve_deferred`), what is written out again (`comparisons`).
//! A set holds numbers of conjuncts, never values; what a number stands for is read from the conjuncts' tables, which
//! are lent. `Abstraction` of crate `column_constraints` says which column of values a struct stands for; every contract
//! is that the result stands for what the definition gives.
#![tactic(auto)]

pub mod comparisons;
pub mod index;
pub mod merging;
