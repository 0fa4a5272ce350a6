// Stage 1 of the merging: what the conjuncts say, into the table of columns.
#![tactic(auto)]

pub mod collect;
