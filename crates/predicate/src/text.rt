// The tests of a text, under a fold that the caller lends. Texts and operands may have any length.
ghost use Rattle.std.specs.Prelude.{◌≡◌};
ghost use Rattle.predicate.specs.Meaning.{equals, begins_with, contains, text_test};

use crate::fold::Fold;
use crate::kind::Kind;

pub fn begins_with(fold: Fold, text: &[u8], operand: &[u8]) -> bool
    ensures { result ≡ begins_with operand.now text.now }
{
    if text.len() < operand.len() {
        return false;
    }
    if operand.is_empty() {
        return true;
    }
    // The first byte apart: tried from many places, the operand's own is then folded once. By index: `zip` and `all`
    // are slower there (the benchmark's runs of "contains", up to a tenth).
    if fold.of(operand[0]) != fold.of(text[0]) {
        return false;
    }
    for i in 1..operand.len() {
        if fold.of(operand[i]) != fold.of(text[i]) {
            return false;
        }
    }
    true
}

pub fn equals(fold: Fold, text: &[u8], operand: &[u8]) -> bool
    ensures { result ≡ equals operand.now text.now }
{
    text.len() == operand.len() && begins_with(fold, text, operand)
}

pub fn contains(fold: Fold, text: &[u8], operand: &[u8]) -> bool
    ensures { result ≡ contains operand.now text.now }
{
    // By place: `windows` takes no length of 0, and an operand may have any.
    for a in 0..text.len() {
        // The operand is longer than every tail from here on.
        if text.len() - a < operand.len() {
            return false;
        }
        if begins_with(fold, &text[a..], operand) {
            return true;
        }
    }
    false
}

// The test of a kind below the opposites.
pub fn text_test(fold: Fold, kind: u8, operand: &[u8], text: &[u8]) -> bool
    ensures { result ≡ text_test kind operand.now text.now }
{
    match kind {
        Kind::EQUALS => equals(fold, text, operand),
        Kind::BEGINS => begins_with(fold, text, operand),
        Kind::CONTAINS => contains(fold, text, operand),
        Kind::TEXT_BLANK => text.is_empty(),
        _ => false,
    }
}
