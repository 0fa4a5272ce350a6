// The numbers of the conjuncts that stand for a column's three sets: what they hold, and one number more.
#![tactic(auto)]

pub mod marks;
pub mod told;
