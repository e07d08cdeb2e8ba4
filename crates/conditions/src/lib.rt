// A typed condition, read into its field.
#![tactic(auto)]

pub mod condition;
