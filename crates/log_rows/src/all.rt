// The log of all rows.
ghost use Rattle.log_rows.specs.Written.{HasLogRoom, LogWritten};

use bitmaps::block::Base;
use bitmaps::word::Word;
use gather::probes::Probes;
use plan::table::Plan;

// Writes the log of so many rows to the front of an output and gives its length.
pub fn put_rows(catalogue: &[u8], plan: &Plan, probes: Probes, rows: usize, out: &mut [u8]) -> usize
    requires { HasLogRoom catalogue.now plan.now probes.turns.now probes.probed.now probes.met.now rows out.old }
    ensures { LogWritten catalogue.now plan.now probes.entry.turns.now probes.entry.probed.now probes.entry.met.now
        rows out.old result out.new }
{
    let mut at = 0;
    for row in (0..rows).step_by(Word::ROWS) {
        // The last block may have fewer rows.
        let count = Word::ROWS.min(rows - row);
        let base = Base { row };
        let blanks = blanks::gather_blanks(catalogue, plan, probes, base);
        at = copy_log::block::put_block(out, at, probes, &blanks, base, count);
    }
    at
}
