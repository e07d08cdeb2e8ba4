// The members of a query: what stands where one is expected, its own checks done.
#![tactic(auto)]

pub mod field;
pub mod repeated;
