// The engine's calls, which `searchroom_c` exports: numbers and byte slices in, one packed word out.
#![tactic(auto)]

pub mod catalogue_call;
pub mod copy_call;
pub mod outcome_call;
pub mod question_call;
pub mod run_call;
pub mod typed_call;
