// The probe log: order 1's copy of the register, one field for each probe.
#![tactic(auto)]

pub mod block;
pub mod field;
