// The outcome of a predicate at a row, read in place from a checked catalogue.
ghost use Rattle.predicate.specs.Kinds.{plain_kind};
ghost use Rattle.predicate.specs.Outcome.{HasRange, PlainIs, OutcomeIs};

use crate::fold::Fold;
use crate::kind::Kind;
use crate::outcome::Outcome;
use catalogue::cell::Cell;
use catalogue::format::{Column, Number};

// The outcome of a kind below the opposites.
fn plain_at(fold: Fold, cell: Cell, kind: u8, operand: &[u8]) -> Outcome
    requires { HasRange kind operand.now }
    ensures { let c = cell.entry in PlainIs c.b.now c.tag c.start kind operand.now c.row result }
{
    if cell.tag == Column::NUMBER_TAG {
        let n = catalogue::column::number_at(cell);
        if crate::outcome::answers_blank(kind, n == Number::BLANK) {
            return Outcome::Blank;
        }
        return Outcome::from(crate::number::number_test(kind, operand, n));
    }
    let text = catalogue::column::text_at(cell);
    if crate::outcome::answers_blank(kind, text.is_empty()) {
        return Outcome::Blank;
    }
    Outcome::from(crate::text::text_test(fold, kind, operand, text))
}

// The outcome of any kind. Kind and operand are not one type with the fact `HasRange`: it is asked here of the plain
// kind, by `number_test` of the kind itself, an opposite's too, and one fact for both would ask more of
// `number_test`.
pub fn outcome_at(fold: Fold, cell: Cell, kind: u8, operand: &[u8]) -> Outcome
    requires { HasRange (plain_kind kind) operand.now }
    ensures { let c = cell.entry in OutcomeIs c.b.now c.tag c.start kind operand.now c.row result }
{
    let plain = crate::kind::plain_kind(kind);
    let outcome = plain_at(fold, cell, plain, operand);
    if kind < Kind::OPPOSITE_FROM {
        outcome
    } else {
        outcome.opposite()
    }
}
