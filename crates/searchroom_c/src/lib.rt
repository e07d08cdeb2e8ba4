// The archive: the calls of `searchroom` under the names that C links, each with its contract there.
#![tactic(auto)]

pub mod catalogue_call;
pub mod copy_call;
pub mod outcome_call;
pub mod question_call;
pub mod run_call;
pub mod typed_call;
