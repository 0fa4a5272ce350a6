// What guesses of where values stand in the order of the pool go by (crate `pool_guesses`).
#![tactic(auto)]

pub mod guides;
