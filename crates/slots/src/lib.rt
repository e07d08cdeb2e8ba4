// The slots of a text column, checked eight bytes at a time.
#![tactic(auto)]

pub mod limits;
pub mod slot;
