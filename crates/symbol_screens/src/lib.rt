//! Screens with symbols (02, 2.10) as definitions: what their records hold, the truths of a row, the merging and the bytes
//! that it writes. No code: no call lends a text pool yet.
#![tactic(auto)]
