// The log of a call's rows, written from its own tables and from the blanks of the catalogue.
#![tactic(auto)]

pub mod all;
