// A typed question read against a catalogue: its bytes, checked as every question's are, go out to the lent output.
#![tactic(auto)]

ghost use Rattle.std.specs.Prelude.{◌^◌, ◌<◌, ◌≤◌, length, ◌≡◌};
ghost use Rattle.fields.specs.Output.{Wrote};
ghost use Rattle.query.specs.Decode.{decode_tagged};
ghost use Rattle.answers.specs.Answer.{answer_of};
ghost use Rattle.answers.specs.Word.{packed};
ghost use Rattle.answers.specs.Written.{written};
ghost use Rattle.syntax.specs.Machine.{question_of};
ghost use Rattle.parser.specs.Reading.{Fits};
ghost use Rattle.demands.specs.Typed.{question_typed};
ghost use Rattle.demands.specs.Calls.{TypedGives};
ghost use Rattle.typed.specs.Typing.{TypedFor};

use answers::answer::Answer;
use answers::refusal::Refusal;
use parser::whole::TypedText;
use reading::tables::Tables;

// A text that is short, as most are: clearing a table for the longest would take longer than reading it.
#[derive(Drop)]
pub struct ShortText;

impl ShortText {
    pub const LIMIT: usize = 1024;

    // Room as TypedText::ROOM has it: half as many bytes again, and 16.
    pub const ROOM: usize = 1552;
}

// The question's bytes, to the output's front, one by one: `put` would copy them by std's `copy_from_slice`, which
// between two slices that callers lend becomes a call of memmove, and the archive asks the linker for memcpy and memset
// alone.
fn put_question(output: &mut [u8], question: &[u8]) -> usize
    requires { length question.now ≤ length output.old }
    ensures { Wrote 0 question.now output.old result output.new }
{
    for i in 0..question.len() {
        output[i] = question[i];
    }
    question.len()
}

// The checks of the question's own bytes, then the output's; the bytes written.
fn give_question(tags: &[u8], question: &[u8], output: &mut [u8]) -> Result<Answer, Refusal>
    requires { length question.now < 2 ^ 24 }
    ensures { written (packed (answer_of result)) output.new
        ≡ question_typed (decode_tagged tags.now question.now) question.now output.old }
{
    reading::whole::read_query(tags, question, &mut Tables::EMPTY)?;
    if output.len() < question.len() {
        return Err(Refusal::TypedOutputTooShort);
    }
    let size = put_question(output, question);
    Ok(Answer {
        first: 0,
        second: 0,
        third: size as u64,
    })
}

// The text read into a table that is lent, and what its question gives.
fn type_text(tags: &[u8], text: &[u8], own: &mut [u8], output: &mut [u8]) -> Result<Answer, Refusal>
    requires { Fits text.now own.old × (length own.old < 2 ^ 24) }
    ensures { TypedFor tags.now (question_of tags.now text.now) output.old
        (written (packed (answer_of result)) output.new) }
{
    let size = parser::whole::read_text(tags, text, own).ok_or(Refusal::TextMisspelled)?;
    give_question(tags, &own[..size], output)
}

// The catalogue's checks, the text's, and those of the question that it spells.
pub fn type_question(catalogue: &[u8], text: &[u8], output: &mut [u8]) -> Result<Answer, Refusal>
    ensures { TypedGives catalogue.now text.now output.old (packed (answer_of result)) output.new }
{
    let layout = layout::lay_out(catalogue)?;
    let tags = &layout.tags[..layout.columns];
    if TypedText::LIMIT < text.len() {
        return Err(Refusal::TextMisspelled);
    }
    if text.len() <= ShortText::LIMIT {
        let mut short = [0u8; ShortText::ROOM];
        return type_text(tags, text, &mut short, output);
    }
    let mut own = [0u8; TypedText::ROOM];
    type_text(tags, text, &mut own, output)
}
