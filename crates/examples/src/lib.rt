// The examples stand in proofs/. What code there is shows them the code's constants.
#![tactic(auto)]

mod tags;
