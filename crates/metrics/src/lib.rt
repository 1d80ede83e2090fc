// Metric arithmetic (swash's metrics.rs): a font's measures shifted by MVAR, a glyph's advances, bearings and vertical origin varied by HVAR and VVAR, both scaled.
// What swash reads from other tables comes from the caller; font and coordinates are lent to each call.
#![tactic(auto)]

pub(crate) mod deltas;
pub mod glyph;
pub mod measures;
pub mod vertical;
