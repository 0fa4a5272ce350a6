// What one record says of a screen's conjuncts, each step equal to its definition in crate merge:
// minterms: the sides of an And, for the walk over the conjuncts (`MintermIter`, crate minterm_iter);
// operands: a conjunct's operands (`as_column`, `as_scalar_lit` and `as_value_set` of the Rust).
#![tactic(auto)]

pub mod minterms;
pub mod operands;
