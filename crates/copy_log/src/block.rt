// The log of a block of 64 rows.
ghost use Rattle.std.specs.Prelude.{◌+◌, ◌≤◌, length};
ghost use Rattle.fields.specs.Output.{Wrote};
ghost use Rattle.bitmaps.specs.Word.{block_rows};
ghost use Rattle.copy_log.specs.MarkedLog.{marked_from, blanks_in};

use bitmaps::block::Base;
use bitmaps::word::Word;
use gather::probes::Probes;

// Writes the fields of so many rows of the block: the turns probed and those of a yes are gathered from their tables,
// those of a blank are lent.
pub fn put_block(
    out: &mut [u8],
    at: usize,
    probes: Probes,
    blanks: &[u64; Word::ROWS],
    base: Base,
    count: usize,
) -> usize
    requires count_few { count ≤ block_rows }
    requires count_in_bounds { at + length (marked_from probes.turns.now probes.probed.now probes.met.now (blanks_in blanks.now) base.row count) ≤ length out.old }
    ensures { Wrote at
        (marked_from probes.entry.turns.now probes.entry.probed.now probes.entry.met.now (blanks_in blanks.now) base.row count)
        out.old result out.new }
{
    let turns = probes.turns;
    let dues = gather::gather(turns, probes.probed, base);
    let mets = gather::gather(turns, probes.met, base);
    let mut end = at;
    for d in 0..count {
        let row = base.row + d;
        end = crate::field::put_row(out, end, turns, row, dues[d], mets[d], blanks[d]);
    }
    end
}
