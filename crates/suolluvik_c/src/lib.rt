// The library as masters and stations link it: for each function of `suolluvik` that is exported one of its name, which calls it and has its contract: a crate is a library or a static library (DECISIONS 131).
#![tactic(auto)]

pub mod coords;
pub mod deltas;
pub mod fvar;
pub mod glyph;
pub mod measures;
pub mod scalars;
pub mod tables;
pub mod version;
