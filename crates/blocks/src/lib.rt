// What a probe leaves live, at 64 rows at once: a word for each predicate, a bit for each row.
#![tactic(auto)]

pub mod group;
pub mod propagation;
