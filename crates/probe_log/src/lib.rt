// The copy of the register: the input of a request read, its rows worked, and the end of the copy.
#![tactic(auto)]

ghost use Rattle.std.specs.Prelude.{◌≡◌};
ghost use Rattle.answers.specs.Answer.{answer_of};
ghost use Rattle.answers.specs.Word.{packed};
ghost use Rattle.answers.specs.Written.{written};
ghost use Rattle.probe_log.specs.Sequence.{log_in_turn};

use answers::answer::Answer;
use answers::refusal::Refusal;
use bitmaps::copy::Line;
use marks::MarkTable;
use reading::tables::Tables;

// The checks, the work, the end.
pub fn log_question(
    catalogue: &[u8],
    question: &[u8],
    order: &[u8],
    output: &mut [u8],
) -> Result<Answer, Refusal>
    ensures { written (packed (answer_of result)) output.new
        ≡ log_in_turn catalogue.now question.now order.now output.old }
{
    let mut found = Tables::EMPTY;
    let begun = input::begin::begin(catalogue, question, &mut found)?;
    let n = begun.n;
    let rows = begun.rows;
    // A byte: no question has more than 64 predicates.
    if !orders::is_order(order, n as u8) {
        return Err(Refusal::NotOrder);
    }
    let mut plan = plan::table::UNFILLED;
    work::make_plan(question, begun, &found.offsets, &mut plan);
    let mut selected = [0u8; Line::SIZE];
    let mut marks = [0u8; 2 * MarkTable::PROBES];
    work::work(
        catalogue,
        question,
        order,
        begun,
        &plan,
        &found.ancestors,
        &mut selected,
        &mut marks,
    );
    finish_log::finish_log(catalogue, &plan, order, &marks, n, rows, output)
}
