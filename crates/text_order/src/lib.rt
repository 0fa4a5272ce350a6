//! A number for every symbol of a text pool, such that numbers compare as the symbols do (02, 2.10). All starts of the pool are put in order by the
//! 16 bytes from each on; a symbol's number is how many of these are below it, and then its length. A word for each start says where the
//! search for that goes on (making); what the words say is tested (testing), so that of making them nothing has to be proved.
#![tactic(auto)]

pub mod making;
pub mod number;
pub mod testing;
