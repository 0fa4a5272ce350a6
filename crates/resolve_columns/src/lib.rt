// The stages behind the propagation: the kept equalities, the resolved columns, the comparisons written out.
#![tactic(auto)]

pub mod conclude;
