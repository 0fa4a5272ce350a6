//! What a call that rewrites a screen with symbols (02, 2.10) promises, as definitions and laws. No code.
#![tactic(auto)]
