//! Rows of plain screens beside a text pool (02, 2.10), as laws: what a row makes of such a screen is what it makes of its numbers. No
//! code.
#![tactic(auto)]
