// What a call answers: its results or a refusal, and the packed word in which they travel; the number of readers and
// the size of the tally.
#![tactic(auto)]

pub mod answer;
pub mod refusal;
pub mod tally;
pub mod word;
