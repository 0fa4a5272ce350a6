// The columns of a merging of ranks with the literals that their limits stand for (02, 2.10): "a rebuilt literal uses the start
// that the kept value had; for a bound opened by an excluded value the excluded one's".
// literals: the literal behind a limit, in the records sent;
// convert: the columns of the table.
#![tactic(auto)]

pub mod convert;
pub mod literals;
