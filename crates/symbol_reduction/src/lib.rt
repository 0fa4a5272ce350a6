//! A screen with symbols reduced by one row (02, 2.10): a copy of its records in which each one with Text inputs is the constant
//! that the row makes of it. Nothing above reads a symbol then, and the evaluators of crate `row_test` give the truth.
#![tactic(auto)]

pub mod constant;
pub mod reduce;
