// Screens on disk: document 02, 2.3 and 2.10.
// Read in the order of the data's way: what a file holds (held), a screen loaded (load). Saving is crate `save_screen`. The
// blocks of a file are crate `file_blocks`, their structure crate `file_structure`.
// Nothing is written before everything that can refuse was looked at.
#![tactic(auto)]

pub mod held;
pub mod load;
