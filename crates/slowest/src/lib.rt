//! The slowest screen (02, 2.13), for capacity planning: `build_slowest` writes, for 2 to 64 columns, a screen that takes exactly as
//! many passes over its equalities as it has columns. What is written is the definition in specs/Screen.antt, which also says
//! what is this builder's choice; specs/Promise.antt states what it is good for.
#![tactic(auto)]

pub mod build;
