// A condition, read into its field.
ghost use Rattle.std.specs.Prelude.{◌+◌, ◌≤◌, length, drop};
ghost use Rattle.fields.specs.Output.{Wrote};
ghost use Rattle.predicate.specs.Kinds.{opposite_from};
ghost use Rattle.syntax.specs.Conditions.{plain_ahead, condition_ahead};
ghost use Rattle.operands.specs.Reading.{HasRoom};
ghost use Rattle.conditions.specs.Reading.{field_head, field_head_size, ConditionRead};

use fields::header::Header;
use lexer::number::read_number;
use lexer::word::read_word;
use operands::test::{NumberLimit, read_test};
use payload::Payload;
use predicate::kind::Kind;
use query::format::Predicate;

// A condition that was read: the places behind its text and behind its field.
#[derive(Clone, Copy, PartialEq, Eq, Debug)]
pub struct Condition {
    pub next: usize,
    pub end: usize,
}

#[derive(Drop)]
pub struct FieldHead;

impl FieldHead {
    // A field's header, the column and the kind.
    pub const SIZE: usize = Header::SIZE + Payload::HEAD;
}

// Writes what stands before a condition's operand of so many bytes.
fn put_head(out: &mut [u8], at: usize, size: usize, column: u8, kind: u8) -> usize
    requires { at + field_head_size + size ≤ length out.old }
    ensures { Wrote at (field_head size column kind) out.old result out.new }
{
    let payload = fields::header::put_header(out, at, Predicate::TAG, size + Payload::HEAD);
    let head = [column, kind];
    fields::output::put(out, payload, &head)
}

// A condition without "not ", its kind raised by so much.
fn read_plain(
    tags: &[u8],
    raised: u8,
    text: &[u8],
    at: usize,
    out: &mut [u8],
    end: usize,
) -> Option<Condition>
    requires has_room { HasRoom text.now at out.old (end + field_head_size) }
    requires raised_le_opposite_from { raised ≤ opposite_from }
    ensures { ConditionRead text.now at (plain_ahead tags.now raised (drop at text.now)) end
        out.old result out.new }
{
    let digits = read_word(text, at, b"c")?;
    let column = read_number(text, digits, NumberLimit::COLUMN)?;
    let behind = read_word(text, column.next, b" ")?;
    let operand = end + FieldHead::SIZE;
    let test = read_test(tags, column.number as usize, text, behind, out, operand)?;
    let size = test.end - operand;
    // A byte: NumberLimit::COLUMN is 255.
    put_head(out, end, size, column.number as u8, test.kind + raised);
    Some(Condition {
        next: test.next,
        end: test.end,
    })
}

// The condition at a place of the text, its field written to the output from a place on.
pub fn read_condition(
    tags: &[u8],
    text: &[u8],
    at: usize,
    out: &mut [u8],
    end: usize,
) -> Option<Condition>
    requires { HasRoom text.now at out.old (end + field_head_size) }
    ensures { ConditionRead text.now at (condition_ahead tags.now (drop at text.now)) end
        out.old result out.new }
{
    match read_word(text, at, b"not ") {
        Some(next) => read_plain(tags, Kind::OPPOSITE_FROM, text, next, out, end),
        None => read_plain(tags, 0, text, at, out, end),
    }
}
