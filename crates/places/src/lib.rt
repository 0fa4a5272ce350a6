// A row of whole numbers, halves and nulls (02, 2.7): its places read, the test for number 18, and how a place compares with a
// literal and with another place. Twice the whole part does not fit 64 bits, so the two parts are never added.
#![tactic(auto)]

pub mod checks;
pub mod compare;
pub mod place;
