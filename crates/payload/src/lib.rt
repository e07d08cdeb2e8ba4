// The check of one condition's payload: column byte, kind byte, operand.
#![tactic(auto)]

ghost use Rattle.std.specs.Prelude.{◌≡◌};
ghost use Rattle.predicate.specs.Payload.{kind_fits, operand_fits, range_fits, valid_payload};

use catalogue::format::{Column, Number};
use predicate::kind::Kind;
use slots::slot::Text;

#[derive(Drop)]
pub struct Payload;

impl Payload {
    // The bytes before the operand.
    pub const HEAD: usize = 2;
    // The bytes of a range's operand, two numbers.
    pub const RANGE_SIZE: usize = 2 * Number::SIZE;
}

// Whether a kind below the opposites exists and is of a column with this tag.
fn kind_fits(tag: u8, kind: u8) -> bool
    ensures { result ≡ kind_fits tag kind }
{
    match kind {
        Kind::RANGE..=Kind::NUMBER_BLANK => tag == Column::NUMBER_TAG,
        Kind::EQUALS..=Kind::TEXT_BLANK => tag == Column::TEXT_TAG,
        _ => false,
    }
}

// Two comparisons, as document 01 has them: a range's `contains` is no plainer.
fn range_fits(operand: &[u8]) -> bool
    ensures { result ≡ range_fits operand.now }
{
    if operand.len() != Payload::RANGE_SIZE {
        return false;
    }
    let low = fields::number::four_bytes(operand, 0);
    let high = fields::number::four_bytes(operand, Number::SIZE);
    low <= high && high < Number::BLANK
}

// Whether an operand has the length and the range that its kind asks.
fn operand_fits(kind: u8, operand: &[u8]) -> bool
    ensures { result ≡ operand_fits kind operand.now }
{
    match kind {
        Kind::RANGE => range_fits(operand),
        Kind::NUMBER_BLANK | Kind::TEXT_BLANK => operand.is_empty(),
        _ => (1..=Text::LIMIT).contains(&operand.len()),
    }
}

// Whether a payload is a condition over columns with these tags.
pub fn payload_is_valid(tags: &[u8], payload: &[u8]) -> bool
    ensures { result ≡ valid_payload tags.now payload.now }
{
    let [column, kind, operand @ ..] = payload else {
        return false;
    };
    let Some(tag) = tags.get(usize::from(*column)) else {
        return false;
    };
    let kind = predicate::kind::plain_kind(*kind);
    kind_fits(*tag, kind) && operand_fits(kind, operand)
}
