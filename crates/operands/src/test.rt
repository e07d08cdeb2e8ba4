// What a condition asks: a word, and an operand behind it, which is written to the output.
ghost use Rattle.std.specs.Prelude.{◌≡◌, ◌≤◌, drop};
ghost use Rattle.predicate.specs.Kinds.{text_blank_kind};
ghost use Rattle.syntax.specs.Spelling.{blank_kind};
ghost use Rattle.syntax.specs.Conditions.{range_ahead, text_ahead, test_ahead};
ghost use Rattle.operands.specs.Reading.{HasRoom, TestRead};

use catalogue::format::Column;
use lexer::number::read_number;
use lexer::quoted::read_quoted;
use lexer::word::read_word;
use predicate::kind::Kind;

// The kind from 0 to 5, and the places behind the text read and the operand written.
#[derive(Clone, Copy, PartialEq, Eq, Debug)]
pub struct Test {
    pub kind: u8,
    pub next: usize,
    pub end: usize,
}

#[derive(Drop)]
pub struct NumberLimit;

impl NumberLimit {
    pub const COLUMN: u64 = 255;

    pub const OPERAND: u64 = 4294967295;
}

// Behind "in ": two numbers with two dots between them. Here and in conditions `text`, `at`, `out` and `end` are no
// struct: one that holds the `&mut` would add to every contract that it holds the same output at the end, and `HasRoom`
// is another fact at each place that is read or written. Text and place would be put together anew at each step.
fn read_range(text: &[u8], at: usize, out: &mut [u8], end: usize) -> Option<Test>
    requires { HasRoom text.now at out.old end }
    ensures { TestRead text.now at (range_ahead (drop at text.now)) end out.old result out.new }
{
    let low = read_number(text, at, NumberLimit::OPERAND)?;
    let behind = read_word(text, low.next, b"..")?;
    let high = read_number(text, behind, NumberLimit::OPERAND)?;
    let half = fields::number::put_four_bytes(out, end, low.number);
    let stop = fields::number::put_four_bytes(out, half, high.number);
    Some(Test {
        kind: Kind::RANGE,
        next: high.next,
        end: stop,
    })
}

// Behind "is ", "starts " or "has ": a quoted text. Inlined: with calls here and at `read_member` of parser, typed
// questions took 5 to 10 % longer.
#[inline(always)]
fn read_operand(kind: u8, text: &[u8], at: usize, out: &mut [u8], end: usize) -> Option<Test>
    requires has_room { HasRoom text.now at out.old end }
    requires kind_le_text_blank_kind { kind ≤ text_blank_kind }
    ensures { TestRead text.now at (text_ahead kind (drop at text.now)) end out.old result out.new }
{
    let opened = read_word(text, at, b"\"")?;
    let quoted = read_quoted(text, opened, out, end)?;
    Some(Test {
        kind,
        next: quoted.next,
        end: quoted.end,
    })
}

// "blank" takes its kind from the column.
fn blank_kind(tags: &[u8], column: usize) -> u8
    ensures { result ≡ blank_kind tags.now column }
{
    match tags.get(column) {
        Some(&Column::TEXT_TAG) => Kind::TEXT_BLANK,
        _ => Kind::NUMBER_BLANK,
    }
}

// Of a condition on a column: what stands behind the column's number and its space.
pub fn read_test(
    tags: &[u8],
    column: usize,
    text: &[u8],
    at: usize,
    out: &mut [u8],
    end: usize,
) -> Option<Test>
    requires { HasRoom text.now at out.old end }
    ensures { TestRead text.now at (test_ahead tags.now column (drop at text.now)) end
        out.old result out.new }
{
    if let Some(next) = read_word(text, at, b"in ") {
        return read_range(text, next, out, end);
    }
    if let Some(next) = read_word(text, at, b"blank") {
        return Some(Test {
            kind: blank_kind(tags, column),
            next,
            end,
        });
    }
    if let Some(next) = read_word(text, at, b"is ") {
        return read_operand(Kind::EQUALS, text, next, out, end);
    }
    if let Some(next) = read_word(text, at, b"starts ") {
        return read_operand(Kind::BEGINS, text, next, out, end);
    }
    let next = read_word(text, at, b"has ")?;
    read_operand(Kind::CONTAINS, text, next, out, end)
}
