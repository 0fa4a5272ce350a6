//! What an And chain says of one column: bounds, excluded values, lists, null tests, as in filter_constraint.rs.
//! The definitions are in specs/, in the order of the data's way: Scalars, Bound, Values, Column, Resolve, Comparisons; Payload
//! is their instance for the values of a screen.
#![tactic(auto)]

pub mod column;
