// A block of rows: the truths of a screen's records in 64 rows at once, record by record up to the root.
#![tactic(auto)]

pub mod depths;
pub mod lines;
pub mod operand;
pub mod quotients;
pub mod record;
pub mod rows;
