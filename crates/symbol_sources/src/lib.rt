// Where the values that a merging of ranks writes come from (02, 2.10): of each, the conjunct of the screen sent that gave it and
// the literal that this conjunct has. Definitions and laws alone.
#![tactic(auto)]
