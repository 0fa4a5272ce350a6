// The table of 64 columns as one lent slice of words, and the numbers of all columns as one lent slice of rows:
// words: a column as seven words;
// cells: a column loaded from the table, and stored;
// rows: the calls of the merging that a column's row of numbers is lent to;
// fields: a column's place in the table, and the next length of a list.
// specs/State.antt says what the slices of each stage hold, proofs/ what a turn of a stage's loop keeps of it.
#![tactic(auto)]

pub mod cells;
pub mod fields;
pub mod rows;
pub mod words;
