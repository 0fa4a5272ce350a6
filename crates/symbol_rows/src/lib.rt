//! Rows of a screen with symbols (02, 2.10).
#![tactic(auto)]
