//! What is shared by the lists of answers that the calls have: 01's refusals of checking stand first in each.
#![tactic(auto)]
