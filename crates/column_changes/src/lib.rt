// What would change a column's three sets, and `is_feasible` of the Rust.
#![tactic(auto)]

pub mod changes;
