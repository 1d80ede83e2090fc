// fvar and avar: axes, instances, normalising, coordinate lists (swash's var.rs and variation.rs).
#![tactic(auto)]

pub mod avar;
pub mod axis;
pub mod fvar;
pub mod variation;
