// Sets of numbers: as a rising list, with binary search in it, and as bits.
#![tactic(auto)]

pub mod bits;
pub mod rising;
