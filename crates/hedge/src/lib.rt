// The hedge list of a screen without symbols (02, 2.14): a screen over a chain of up to 1,024 rows. Read in the order of the
// data's way: the rows are judged, each once, and only then is the first byte written, since the last row may still be refused
// (13) and the sums may not fit (21). The calls of the C interface stand in crate `screen_hedge`.
#![tactic(auto)]

pub mod list;
