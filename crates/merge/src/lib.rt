//! `merge_filter_constraints`: the lines of a screen merged, as in filter_constraint.rs and minterm_iter.rs.
//! The definitions are in specs/, in the order of the data's way: Minterms (the walk), Classify (reading a conjunct), Collect (the
//! table of columns), Propagate (the passes over the equalities), Emit (what is decided), Rebuild and Write (the records added),
//! Rewrite (refusals, answer, bytes at exit). Demand, Plain and Passes state what is promised; the worked
//! cases of 01 are crate `merge_cases`.
#![tactic(auto)]

pub mod answer;
