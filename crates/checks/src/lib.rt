// The calls that only check: a catalogue, and a question against one.
#![tactic(auto)]

ghost use Rattle.std.specs.Prelude.{◌≡◌};
ghost use Rattle.catalogue.specs.Decode.{decode_catalogue};
ghost use Rattle.task.specs.Input.{decode_input};
ghost use Rattle.answers.specs.Answer.{answer_of};
ghost use Rattle.answers.specs.Answers.{catalogue_answer, question_answer};

use answers::answer::Answer;
use answers::refusal::Refusal;
use reading::tables::Tables;

// The numbers of entries and of columns.
pub fn check_catalogue(catalogue: &[u8]) -> Result<Answer, Refusal>
    ensures { answer_of result ≡ catalogue_answer (decode_catalogue catalogue.now) }
{
    let layout = layout::lay_out(catalogue)?;
    Ok(Answer {
        first: layout.rows as u64,
        second: layout.columns as u64,
        third: 0,
    })
}

// The number of conditions.
pub fn check_question(catalogue: &[u8], question: &[u8]) -> Result<Answer, Refusal>
    ensures { answer_of result ≡ question_answer (decode_input catalogue.now question.now) }
{
    let mut found = Tables::EMPTY;
    let begun = input::begin::begin(catalogue, question, &mut found)?;
    Ok(Answer {
        first: begun.n as u64,
        second: 0,
        third: 0,
    })
}
