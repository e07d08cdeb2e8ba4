// The plan of a run: of each predicate where its outcome comes from.
#![tactic(auto)]

pub mod table;
