// Counts: the ones of a table, and of the lines of a run's own tables, with eight bytes as one number where eight
// remain.
#![tactic(auto)]

pub mod adder;
pub mod bytes;
pub mod lines;
pub mod ones;
