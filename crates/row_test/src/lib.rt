// The row test: what a row makes of a checked screen. The two evaluators, the checks of the row, and the answer, in the
// order of the data's way. Evaluating never checks, and checking never evaluates.
// Stack: the evaluators take 241 bytes a level, a chain of 4,096 records less than a megabyte.
#![tactic(auto)]

pub mod evaluate;
pub mod row;
pub mod test;
