// Membership in the list of a checked screen: is_in of a value and the record of a list.
#![tactic(auto)]

pub mod member;
