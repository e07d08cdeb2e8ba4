// Bitmaps: the selection and the probes of a run, marked bit by bit in tables of the run's own and copied out.
#![tactic(auto)]

pub mod bit;
pub mod block;
pub mod copy;
pub mod size;
pub mod word;
