// The merging of the conjuncts of an accepted screen: which tables and which index it is lent.
#![tactic(auto)]

pub mod sized;
