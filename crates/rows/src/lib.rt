// Rows worked through, 64 at a time: the probes where they are due, the rows selected, and the bitmaps of both.
#![tactic(auto)]

pub mod all;
pub mod block;
