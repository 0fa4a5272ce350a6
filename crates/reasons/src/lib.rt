// The text of the reasons of a rebuilt screen: document 02, 2.6. A line says column, operator, value and the number of the
// typed line behind it, as `0 GtEq 5 2`, closed by byte 10. In a Text column the value is a symbol, as `0 Eq t535058 2`.
// Read in the order of the data's way: numbers and symbols (crates decimals, symbol_text), operators (operator), values (value), a
// line (reason). How long a line is comes
// before its first byte is written: nothing is written that a lent buffer cannot hold.
#![tactic(auto)]

pub mod operator;
pub mod reason;
pub mod value;
