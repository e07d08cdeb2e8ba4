// The text of the register that `consult` prints.
#![tactic(auto)]

pub mod text;
