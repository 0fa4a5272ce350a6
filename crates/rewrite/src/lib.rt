// What stands before and behind the merging of the conjuncts, column by column:
// literals: the literals and lists of all conjuncts, decoded once;
// add: what a conjunct says, taken into its column;
// write: the records that a rebuilt screen adds (`comparison_node`, `fold_and`);
// emit: the comparisons of a resolved column, written out.
#![tactic(auto)]

pub mod add;
pub mod emit;
pub mod literals;
pub mod write;
