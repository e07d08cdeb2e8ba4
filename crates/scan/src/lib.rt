// The outcomes of one predicate at the due rows of a block of 64 rows, as a word: bit d is row base + d.
#![tactic(auto)]

pub mod met;
pub mod range;
pub mod text;
