// The reading of a query: its members, each with those of its own, and the whole.
#![tactic(auto)]

pub mod member;
pub mod tables;
pub mod whole;
