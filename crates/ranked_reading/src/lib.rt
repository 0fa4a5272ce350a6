//! What the merging asks of the screen of ranks (02, 2.10), as laws: its conjuncts are those of the screen with symbols, and
//! their columns lie in the table. No code.
#![tactic(auto)]
