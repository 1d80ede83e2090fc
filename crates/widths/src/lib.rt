// What swash reads from hmtx, vmtx and VORG: a glyph's unvaried numbers; and its measures from one call, in which these are read, varied by HVAR or VVAR, and scaled.
#![tactic(auto)]

pub mod adjusted;
pub mod glyph;
pub mod vorg;
pub mod xmtx;
