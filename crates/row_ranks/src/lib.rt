//! Rows of symbols as numbers that compare as the symbols do (02, 2.10 and 2.14): a row (row), the rows of a chain (block).
#![tactic(auto)]

pub mod block;
pub mod row;
