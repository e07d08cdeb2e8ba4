// The blanks of a block by row: of each row the turns whose predicates were probed there with outcome blank.
#![tactic(auto)]

ghost use Rattle.blanks.specs.Blanks.{NoesIn, HasProbesAt, BlankRows, HasProbes, BlankTurns};

use bitmaps::block::Base;
use bitmaps::copy::Line;
use bitmaps::word::Word;
use gather::probes::Probes;
use plan::table::Plan;

// Where the blanks of a turn are sought: among its noes, or among all due rows where these are the whole block, which
// is gone through faster.
fn rows_of_no(due: u64, met: u64) -> u64
    ensures { NoesIn due met result }
{
    if due == sets::below(64) {
        return due;
    }
    sets::minus(due, met)
}

// The rows of the block at which predicate c was probed with outcome blank. The two tables are lent one by one: that
// they hold bytes, on which the bits of a word rest, `Probes` does not say of its slices.
fn blank_rows(catalogue: &[u8], plan: &Plan, probed: &[u8], met: &[u8], c: usize, base: Base) -> u64
    requires { HasProbesAt catalogue.now plan.now probed.now met.now c }
    ensures { BlankRows catalogue.now plan.now probed.now met.now c base.row result }
{
    let at = c * Line::SIZE + base.row / 8;
    let rows = rows_of_no(words::word_at(probed, at), words::word_at(met, at));
    access::blank_of(catalogue, plan[c], base.row, rows)
}

// A run takes a blank for a no and keeps no table of them; so those among the probed rows are worked out again, turn by
// turn.
pub fn gather_blanks(catalogue: &[u8], plan: &Plan, probes: Probes, base: Base) -> [u64; Word::ROWS]
    requires { HasProbes catalogue.now plan.now probes.turns.now probes.probed.now probes.met.now }
    ensures { BlankTurns catalogue.now plan.now probes.entry.turns.now probes.entry.probed.now probes.entry.met.now
        base.row result }
{
    let rows_of = |c| blank_rows(catalogue, plan, probes.probed, probes.met, c, base);
    gather::gather_words(probes.turns, rows_of)
}
