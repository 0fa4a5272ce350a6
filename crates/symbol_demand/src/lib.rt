//! What rewriting promises of screens with symbols (02, 2.10), as definitions and laws: rows keep their fate, the screen
//! returned is accepted and rewritten no further. No code.
#![tactic(auto)]
