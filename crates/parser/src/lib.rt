// A typed question, read into question bytes: groups opened and closed, and the whole text.
#![tactic(auto)]

pub mod groups;
pub mod whole;
