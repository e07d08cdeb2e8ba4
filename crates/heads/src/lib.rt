// The due rows of a block, and a slot's head: what equals, begins and blank ask of its first bytes, as a filter of
// the due rows of a block with no branch on them; and the test of a byte that such filters know of the fold.
#![tactic(auto)]

pub mod byte_test;
pub mod front;
pub mod head;
pub mod rows;
