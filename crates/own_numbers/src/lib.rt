//! A screen without symbols beside a text pool (02, 2.10): it is its own numbers, and checked as ever. No code: the laws by which
//! the calls that go through a plain screen answer for it what they did before there were symbols.
#![tactic(auto)]
