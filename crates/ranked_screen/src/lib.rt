// The screen of ranks of a screen with symbols (02, 2.10), written into lent records and a lent pool: what stands at each
// place (places), the records (record), the pool (pool), all together (rank).
#![tactic(auto)]

pub mod places;
pub mod pool;
pub mod rank;
pub mod record;
