// The records of a screen: document 01, 'Records'.
// Read in the order of the data's way: bytes, operators, one record, and what its sixteen bytes must satisfy by
// themselves. Nothing here writes a lent byte.
#![tactic(auto)]

pub mod bytes;
pub mod operator;
pub mod record;
