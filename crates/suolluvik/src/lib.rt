// The library that masters and stations call; `suolluvik_c` exports it. A function that can refuse answers the refusal's number, 0 for none, and writes its values through `&mut`, zeros on a refusal; one that can't
// and has one value answers that.
#![tactic(auto)]

pub mod answers;
pub mod coords;
pub mod deltas;
pub mod fvar;
pub mod glyph;
pub mod measures;
pub mod scalars;
pub mod tables;
pub mod version;
