// Before a text test: the due rows of a block whose texts may pass it, told by bytes of each slot with no branch on
// them. A filter may pass too much, never too little.
#![tactic(auto)]

pub mod contains;
pub mod non_ascii;
pub mod pair;
pub mod sift;
pub mod windows;
