// Working out one condition at one entry.
#![tactic(auto)]

ghost use Rattle.std.specs.Prelude.{◌≡◌};
ghost use Rattle.task.specs.Input.{decode_input};
ghost use Rattle.input.specs.Beginning.{HasInputOffsets};
ghost use Rattle.answers.specs.Answer.{answer_of};
ghost use Rattle.answers.specs.Answers.{outcome_number, outcome_answer};

use answers::answer::Answer;
use answers::refusal::Refusal;
use input::begin::Beginning;
use plan::table::Columns;
use predicate::fold::Fold;
use predicate::outcome::Outcome;
use reading::tables::Tables;

// A `From` would be an impl of std's trait for `predicate`'s type, which only `predicate` may write, and the numbers
// are the answers'.
fn number_of(outcome: Outcome) -> u64
    ensures { result ≡ outcome_number outcome }
{
    match outcome {
        Outcome::No => 0,
        Outcome::Yes => 1,
        Outcome::Blank => 2,
    }
}

fn outcome_accepted(
    catalogue: &[u8],
    question: &[u8],
    begun: Beginning,
    offsets: &[usize],
    entry: u64,
    condition: u64,
) -> Result<Answer, Refusal>
    requires { HasInputOffsets catalogue.now question.now begun offsets.now }
    ensures { answer_of result ≡ outcome_answer (decode_input catalogue.now question.now) entry condition }
{
    if begun.rows as u64 <= entry {
        return Err(Refusal::NoSuchRowOrPredicate);
    }
    if begun.n as u64 <= condition {
        return Err(Refusal::NoSuchRowOrPredicate);
    }
    let columns = Columns {
        tags: &begun.tags,
        starts: &begun.starts,
    };
    let planned = plan::table::plan_predicate(columns, question, offsets, condition as usize);
    let table = predicate::fold::fold_table();
    let outcome = access::outcome_of(
        Fold { table: &table },
        catalogue,
        question,
        planned,
        entry as usize,
    );
    Ok(Answer {
        first: number_of(outcome),
        second: 0,
        third: 0,
    })
}

// The refusals of the input, then 18: no such row or predicate.
pub fn outcome_at(
    catalogue: &[u8],
    question: &[u8],
    entry: u64,
    condition: u64,
) -> Result<Answer, Refusal>
    ensures { answer_of result ≡ outcome_answer (decode_input catalogue.now question.now) entry condition }
{
    let mut found = Tables::EMPTY;
    let begun = input::begin::begin(catalogue, question, &mut found)?;
    outcome_accepted(catalogue, question, begun, &found.offsets, entry, condition)
}
