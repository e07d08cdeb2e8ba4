// Marks in a table of lines: a line for the probes of each predicate and, in a longer table, then one for its yes.
#![tactic(auto)]

ghost use Rattle.marks.specs.Marks.{MarkReady, Marked};

use bitmaps::copy::Line;
use query::format::Predicate;

#[derive(Drop)]
pub struct MarkTable;

impl MarkTable {
    // The bytes of the lines for the probes; those for a yes take as many.
    pub const PROBES: usize = Predicate::LIMIT * Line::SIZE;
}

// Puts the due rows of predicate c into its line, in the block at base, and those of a yes into theirs, if the table
// has it. The table is a slice: its length tells whether it has lines for a yes. The base is a number, as in the block
// that rows works: `BlockReady` says there where it may be.
pub fn mark(marks: &mut [u8], c: usize, base: usize, due: u64, met: u64)
    requires { MarkReady c base marks.old }
    ensures { Marked c base due met marks.old marks.new }
{
    let at = c * Line::SIZE + base / 8;
    bitmaps::word::put_word(marks, at, due);
    let met_at = at + MarkTable::PROBES;
    if met_at < marks.len() {
        bitmaps::word::put_word(marks, met_at, met);
    }
}
