// The item variation store and the tables that lead to it (swash's var.rs): HVAR and VVAR for a glyph's advance and bearing, MVAR for a font's measures.
// Offsets become indexes by `as`, here and in the crates above: `usize` has no `From` for 32 bits, and the other terms of a sum are cast alike. A bound on a
// position, as `row < 2 ^ 40`, is its caller's sum: a type for positions would need one for each.
#![tactic(auto)]

pub mod item;
pub mod keyed;
pub mod metric;
pub mod mvar;
pub mod mvar_deltas;
pub mod mvar_tags;
mod region;
