//! The worked cases of 01, its requests and the traps of this trade: the definitions of crate `merge` yield them. No code.
#![tactic(auto)]
