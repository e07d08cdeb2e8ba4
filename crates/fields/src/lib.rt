// Document 01's fields: numbers with the most significant byte first, the header of a field, and the counter; and the
// writing of an output.
#![tactic(auto)]

pub mod counter;
pub mod header;
pub mod number;
pub mod output;
