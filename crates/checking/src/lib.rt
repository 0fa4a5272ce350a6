// Checking a screen: document 01, 'Answers by operation'.
// The check of one record is crate `record_check`. Here: the answer of checking with the tree counts, then the columns
// read.
// Nothing here writes a byte of a screen, and no public answer asks anything of the bytes it is given.
#![tactic(auto)]

pub mod check;
pub mod reads;
