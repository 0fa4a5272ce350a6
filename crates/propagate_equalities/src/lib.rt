// Stage 2 of the merging: the equalities, pass by pass.
#![tactic(auto)]

pub mod propagate;
