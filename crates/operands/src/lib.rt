// What a typed condition asks: its kind, and its operand written to an output.
#![tactic(auto)]

pub mod test;
