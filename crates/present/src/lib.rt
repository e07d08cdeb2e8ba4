// The rows that take part in a run, order 6's entries still in the house.
#![tactic(auto)]

ghost use Rattle.std.specs.Prelude.{◌≡◌, ◌+◌, ◌≤◌, ◌<◌, length, drop};
ghost use Rattle.bitmaps.specs.Table.{line_size};
ghost use Rattle.present.specs.Present.{WithdrawnFor, present_set};

use bitmaps::block::Base;
use bitmaps::copy::Line;

// The mark that starts there, with zeros behind it, so that each block has a word of it.
pub fn withdrawn_line(catalogue: &[u8], mark: usize) -> [u8; Line::SIZE]
    requires { (mark ≤ length catalogue.now) × (length catalogue.now ≤ mark + line_size) }
    ensures { WithdrawnFor (drop mark catalogue.now) result }
{
    let mut line = [0u8; Line::SIZE];
    fields::output::put(&mut line, 0, &catalogue[mark..]);
    line
}

// Of the block at base the rows that there are and that are not withdrawn.
pub fn present_rows(withdrawn: &[u8; Line::SIZE], rows: usize, base: Base) -> u64
    requires { base.row < rows }
    ensures { result ≡ present_set withdrawn.now rows base.row }
{
    // The last block may have fewer rows.
    let there = bitmaps::word::rows_of(rows - base.row);
    sets::minus(there, words::word_at(withdrawn, base.row / 8))
}
