// Document 01's question: the numbers of its format and a member's field. The rest are definitions and laws, in specs
// and proofs.
#![tactic(auto)]

pub mod format;
pub mod member;
pub mod refusal;
