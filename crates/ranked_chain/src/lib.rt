// The rows of a chain under a screen with symbols (02, 2.10 and 2.14), judged as rows of numbers: the numbers of the screen's symbols (numbers),
// the records with them (literals) and with lists that lie behind them (lists), the screen (screen), and the rows, some at a time (chunks).
#![tactic(auto)]

pub mod lists;
pub mod literals;
pub mod numbers;
pub mod screen;
