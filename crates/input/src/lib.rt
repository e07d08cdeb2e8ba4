// What every call on a question begins with: the catalogue laid out, the question read against it.
#![tactic(auto)]

pub mod begin;
