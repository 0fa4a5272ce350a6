// The check of one record, from what is known of those below it: a list in the pool (fit, outside), then the record's
// shape, reach, types and tree count (step). Read in the order of the data's way.
#![tactic(auto)]

pub mod fit;
pub mod outside;
pub mod step;
