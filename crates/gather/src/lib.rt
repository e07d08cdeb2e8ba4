// The marks of a block by row: words with a bit for each of 64 rows, one for each turn, made into sets of turns, one
// for each row.
#![tactic(auto)]

ghost use Rattle.std.specs.Prelude.{◌<◌, ◌≤◌, length};
ghost use Rattle.sets.specs.Set.{below_set};
ghost use Rattle.bitmaps.specs.Word.{block_rows};
ghost use Rattle.gather.specs.Turns.{turn_limit, HasLines, AtTurns, GatheredBy, TurnsFor, Added};

pub mod probes;

use bitmaps::block::Base;
use bitmaps::copy::Line;
use bitmaps::word::Word;
use sets::numbers::Numbers;

// Adds turn i to all rows, with no branch on them: a loop of constant length, which becomes vector code. By number, as
// `Added` tells the rows.
fn add_to_all(gathered: &mut [u64; Word::ROWS], i: u8)
    requires { i < turn_limit }
    ensures { Added (below_set block_rows) i gathered.old gathered.new }
{
    for row in 0..Word::ROWS {
        gathered[row] = sets::with(gathered[row], i);
    }
}

// Adds turn i to the rows of a word. A full word, as at a first turn, takes the loop with no branch (docs/DECISIONS.md
// has what it saves).
pub fn add_turn(gathered: &mut [u64; Word::ROWS], word: u64, i: u8)
    requires { i < turn_limit }
    ensures { Added word i gathered.old gathered.new }
{
    if word == sets::below(64) {
        add_to_all(gathered, i);
        return;
    }
    for d in Numbers(word) {
        let d = usize::from(d);
        gathered[d] = sets::with(gathered[d], i);
    }
}

// Turn after turn, adds turn i to the rows of the word that a rule gives for its predicate. At most 64 turns: `as u8`
// loses nothing.
pub fn gather_words<F: Fn(usize) -> u64>(turns: &[u8], word_of: F) -> [u64; Word::ROWS]
    requires { (length turns.now ≤ turn_limit) × AtTurns turns.now (F.pre word_of) }
    ensures { GatheredBy (F.post word_of) turns.now result }
{
    let mut gathered = [0; Word::ROWS];
    for (i, c) in turns.iter().enumerate() {
        add_turn(&mut gathered, word_of(usize::from(*c)), i as u8);
    }
    gathered
}

// The turns whose predicates are marked in the table, for each row of the block. The table is either of those of
// Probes: its lines are asked for here, so that one function serves both.
pub fn gather(turns: &[u8], table: &[u8], base: Base) -> [u64; Word::ROWS]
    requires { HasLines turns.now table.now }
    ensures { TurnsFor turns.now table.now base.row result }
{
    gather_words(
        turns,
        |c| words::word_at(table, c * Line::SIZE + base.row / 8),
    )
}
