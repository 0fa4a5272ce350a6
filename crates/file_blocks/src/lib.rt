// The blocks of a saved screen: document 02, 2.3. Bytes copied (copy) and blocks written (block). The checksum and the structure of
// a file that is read are crates of their own.
#![tactic(auto)]

pub mod block;
pub mod copy;
