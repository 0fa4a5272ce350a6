//! The reasons of a rewritten screen with symbols (02, 2.6 and 2.10) as definitions: values that carry their lines, and the
//! text. No code: no call lends a text pool yet.
#![tactic(auto)]
