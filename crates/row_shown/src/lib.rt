//! The row shown (02, 2.7): its definition over the resolved columns (specs/Shown.antt), and the place of one column
//! in code.
#![tactic(auto)]

pub mod place;
