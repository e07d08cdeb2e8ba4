// The due rows at which a predicate's outcome is yes, or blank: the kind is looked at for a block, not for each row.
ghost use Rattle.std.specs.Prelude.{◌≡◌, true};
ghost use Rattle.predicate.specs.Kinds.{plain_kind};
ghost use Rattle.predicate.specs.Payload.{kind_fits};
ghost use Rattle.scan.specs.Met.{FitsColumn, PlainMetFor, MetFor, BlankFor};

use catalogue::format::Column;
use heads::rows::DueRows;
use predicate::fold::Fold;
use predicate::kind::Kind;

// Of the kind below the opposites. What a leaf takes of the operand is worked out for each block: a table of it is no
// faster.
fn plain_met_at(fold: Fold, rows: DueRows, kind: u8, operand: &[u8]) -> u64
    requires { FitsColumn rows.tag kind operand.now }
    ensures { let r = rows.entry in PlainMetFor r.b.now r.start r.base kind operand.now r.due result }
{
    let plain = predicate::kind::plain_kind(kind);
    match plain {
        Kind::RANGE => {
            let range = crate::range::range_of(operand);
            numbers::numbers_within(rows, range)
        }
        Kind::NUMBER_BLANK => numbers::numbers_blank(rows),
        Kind::TEXT_BLANK => crate::text::texts_blank(rows),
        _ => {
            let may = filters::sift::sift(fold, rows, plain, operand);
            crate::text::texts_that_pass(fold, rows.left(may), plain, operand)
        }
    }
}

// Those at which it is blank. No operand is asked for: a kind that asks for content answers so at every blank.
pub fn blank_at(rows: DueRows, kind: u8) -> u64
    requires { kind_fits rows.tag (plain_kind kind) ≡ true }
    ensures { let r = rows.entry in BlankFor r.b.now r.start r.base kind r.due result }
{
    if !predicate::kind::asks_content(predicate::kind::plain_kind(kind)) {
        return 0;
    }
    if rows.tag == Column::NUMBER_TAG {
        return numbers::numbers_blank(rows);
    }
    crate::text::texts_blank(rows)
}

// Those of any kind at which it is yes.
pub fn met_at(fold: Fold, rows: DueRows, kind: u8, operand: &[u8]) -> u64
    requires { FitsColumn rows.tag kind operand.now }
    ensures { let r = rows.entry in MetFor r.b.now r.start r.base kind operand.now r.due result }
{
    let met = plain_met_at(fold, rows, kind, operand);
    if kind < Kind::OPPOSITE_FROM {
        return met;
    }
    // An opposite kind: the due rows that its plain kind leaves, but for those of a blank.
    rows.due ^ (met | blank_at(rows, kind))
}
