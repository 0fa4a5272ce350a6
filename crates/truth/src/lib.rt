// Values by ISO/IEC 9075's three-valued logic (crate `three_valued`), and the bytes that a checked screen and a row give them.
// specs/Cell.antt is their meaning. Read in the order of the data's way: values, the bytes of a checked
// screen. Membership is crate `membership`, the evaluators and the row test are crate `row_test`.
#![tactic(auto)]

pub mod read;
pub mod scalar;
pub mod value;
