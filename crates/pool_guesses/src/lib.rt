// Guesses of where values stand in the order of the pool. Nothing is promised of them: a wrong one costs time and no answer.
#![tactic(auto)]

pub mod guessing;
