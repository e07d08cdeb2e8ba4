// Running a question in a given order, for a reader.
#![tactic(auto)]

ghost use Rattle.answers.specs.Answer.{answer_of};
ghost use Rattle.answers.specs.Word.{packed};
ghost use Rattle.demands.specs.Run.{lent};
ghost use Rattle.demands.specs.Calls.{RunGives};

use answers::answer::Answer;
use answers::refusal::Refusal;
use bitmaps::copy::Line;
use marks::MarkTable;
use reading::tables::Tables;

// The checks, the work, the end.
pub fn run_question(
    catalogue: &[u8],
    question: &[u8],
    order: &[u8],
    reader: u64,
    listed: &mut [u8],
    looks: &mut [u8],
    tally: &mut [u8],
) -> Result<Answer, Refusal>
    ensures { RunGives (lent catalogue.now question.now order.now reader
        listed.old looks.old tally.old)
        (packed (answer_of result)) listed.new looks.new tally.new }
{
    let mut found = Tables::EMPTY;
    let begun = input::begin::begin(catalogue, question, &mut found)?;
    let n = begun.n;
    let size = bitmaps::size::bytes_for(begun.rows);
    request::check_request(order, n, size, reader, listed.len(), looks.len())?;
    let mut selected = [0u8; Line::SIZE];
    let mut probed = [0u8; MarkTable::PROBES];
    run_rows::work_run(
        catalogue,
        question,
        order,
        begun,
        &found,
        &mut selected,
        &mut probed,
    );
    finish::finish(
        &selected,
        &probed,
        n,
        size,
        reader as usize,
        listed,
        looks,
        tally,
    )
}
