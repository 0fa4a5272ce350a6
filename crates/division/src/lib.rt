// Division of 64-bit signed numbers: the quotient rounded down, and the rest.
// specs/Division.antt is its meaning, over all whole numbers.
#![tactic(auto)]

pub mod divide;
