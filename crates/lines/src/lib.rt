// Scalars once for each line of type (document 02, W-204): filled into a lent list, and the deltas that are read with it. The heads of the tables are read here once more, with one test for reads that
// refuse alike and stand behind one another: a line asks for them forty times.
#![tactic(auto)]

pub mod filling;
pub mod item;
pub mod metric;
pub mod mvar;
