// The rows of a chain: the class of each. Counting them and the list of those that pass are crate row_list.
#![tactic(auto)]

pub mod fitting;
pub mod judge;
