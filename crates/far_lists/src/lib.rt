// Whether the lists of a screen travel far along its equalities (far).
#![tactic(auto)]

pub mod far;
