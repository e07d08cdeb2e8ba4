// One predicate, document 01's condition: its outcome at one row.
#![tactic(auto)]

pub mod fold;
pub mod kind;
pub mod number;
pub mod outcome;
pub mod row;
pub mod text;
