// How a run ends: what will go out is counted, the tally tested, and only then the lent tables written.
#![tactic(auto)]

ghost use Rattle.std.specs.Prelude.{◌≡◌, ◌*◌, ◌≤◌, ◌<◌, length};
ghost use Rattle.query.specs.Format.{predicate_limit};
ghost use Rattle.bitmaps.specs.Table.{line_size};
ghost use Rattle.counts.specs.Whole.{NoneBehind};
ghost use Rattle.answers.specs.Answer.{answer_of};
ghost use Rattle.answers.specs.Word.{packed};
ghost use Rattle.demands.specs.Run.{ran, reader_limit};
ghost use Rattle.finish.specs.Finish.{finished, HasRoom};

use answers::answer::Answer;
use answers::refusal::Refusal;
use answers::tally::Tally;
use bitmaps::copy::Lines;
use fields::counter::Counter;

// Ends a run whose own tables are these, with lines of this size: refusal 17, or the results, the lent tables and its
// reader's counter. `listed`, `looks` and `tally` are C's. The run's own tables have room for the most predicates and
// rows; `Lines` is made of them where they are counted.
pub fn finish(
    selected: &[u8],
    probed: &[u8],
    n: usize,
    size: usize,
    reader: usize,
    listed: &mut [u8],
    looks: &mut [u8],
    tally: &mut [u8],
) -> Result<Answer, Refusal>
    requires selected_len { (length selected.now ≡ line_size) × (length probed.now ≡ predicate_limit * line_size) × (n ≤ predicate_limit) × (size ≤ line_size) }
    requires has_room { HasRoom n size listed.old looks.old × (reader < reader_limit) }
    requires none_behind { NoneBehind size 1 selected.now × NoneBehind size n probed.now }
    ensures { ran (packed (answer_of result)) listed.new looks.new tally.new
        ≡ finished selected.now probed.now n size reader
        listed.old looks.old tally.old }
{
    if tally.len() != Tally::SIZE {
        return Err(Refusal::TallyRefused);
    }
    let selected_lines = Lines {
        table: selected,
        n: 1,
        size,
    };
    let probed_lines = Lines {
        table: probed,
        n,
        size,
    };
    let found = counts::lines::count_whole_lines(selected_lines);
    let looked = counts::lines::count_whole_lines(probed_lines);
    let at = reader * Counter::SIZE;
    let before = fields::counter::eight_bytes(tally, at);
    if Counter::LIMIT - before < looked {
        return Err(Refusal::TallyRefused);
    }
    bitmaps::copy::copy_lines(selected_lines, listed);
    bitmaps::copy::copy_lines(probed_lines, looks);
    fields::counter::put_eight_bytes(tally, at, before + looked);
    Ok(Answer {
        first: found,
        second: 0,
        third: looked,
    })
}
