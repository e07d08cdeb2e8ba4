// The pieces that a typed question is made of: fixed words, numbers, quoted texts.
#![tactic(auto)]

pub mod number;
pub mod quoted;
pub mod word;
