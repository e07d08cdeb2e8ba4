// The bits that may not stand in a byte of a text slot: entry k is `limit_of k` of specs/Limits.antt.
ghost use Rattle.slots.specs.Limits.{Limits};

use crate::slot::Text;

#[derive(Drop)]
pub struct Limit;

impl Limit {
    // The greatest number that a length byte can have.
    pub const GREATEST_LENGTH: usize = 255;

    pub const ENTRIES: usize = Limit::GREATEST_LENGTH + Text::SLOT_SIZE;

    // The entries that forbid nothing: as many as a length byte and the longest text have bytes.
    pub const FREE_FROM: usize = Limit::GREATEST_LENGTH - Text::LIMIT;

    pub const FREE_TO: usize = Limit::GREATEST_LENGTH + 1;
}

// A table of its own, for the caller to lend.
pub fn limit_table() -> [u8; Limit::ENTRIES]
    ensures { Limits result }
{
    let mut table = [255u8; Limit::ENTRIES];
    table[Limit::FREE_FROM..Limit::FREE_TO].fill(0);
    table
}
