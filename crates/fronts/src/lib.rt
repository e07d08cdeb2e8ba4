// Equals and begins at the rows that a filter left, tested exactly.
#![tactic(auto)]

pub mod sure;

ghost use Rattle.std.specs.Prelude.{◌≡◌, true, ◌+◌, ◌≤◌, length};
ghost use Rattle.fields.specs.Numbers.{Bytes};
ghost use Rattle.catalogue.specs.Format.{text_tag};
ghost use Rattle.catalogue.specs.InPlace.{HasRow};
ghost use Rattle.predicate.specs.Meaning.{begins_with, text_test};
ghost use Rattle.sets.specs.Kept.{KeptBy};
ghost use Rattle.heads.specs.Block.{text_of};
ghost use Rattle.fronts.specs.Fronts.{of_fronts, size_fits, BeginsAlike};
ghost use Rattle.fronts.specs.Sure.{SureFor};

use crate::sure::Sure;
use catalogue::cell::Cell;
use catalogue::format::Column;
use heads::rows::DueRows;
use predicate::fold::Fold;
use predicate::kind::Kind;
use slots::slot::Text;

// Whether a kind is one of these two.
pub fn of_fronts(kind: u8) -> bool
    ensures { result ≡ of_fronts kind }
{
    kind == Kind::EQUALS || kind == Kind::BEGINS
}

// Whether a text of this length may pass.
fn size_fits(kind: u8, text: usize, operand: usize) -> bool
    ensures { result ≡ size_fits kind text operand }
{
    if kind == Kind::EQUALS {
        text == operand
    } else {
        operand <= text
    }
}

// Whether a text that begins as the operand does, in the bytes that a slot's first word holds, goes on so.
fn rest_matches(fold: Fold, text: &[u8], operand: &[u8]) -> bool
    requires { (length operand.now ≤ length text.now) × BeginsAlike operand.now text.now }
    ensures { result ≡ begins_with operand.now text.now }
{
    for i in Sure::SIZE..operand.len() {
        if fold.of(operand[i]) != fold.of(text[i]) {
            return false;
        }
    }
    true
}

// Whether the text of a row passes. Where its first word does not tell, as of an accented letter, it is compared from
// its first byte on.
fn row_passes(fold: Fold, cell: Cell, kind: u8, operand: &[u8], k: Sure) -> bool
    requires { (cell.tag ≡ text_tag) × (of_fronts kind ≡ true) × SureFor operand.now k × Bytes cell.b.now }
    ensures { result ≡ text_test kind operand.now (text_of cell.entry.b.now cell.entry.start cell.entry.row) }
{
    let text = catalogue::column::text_at(cell);
    if !size_fits(kind, text.len(), operand.len()) {
        return false;
    }
    if crate::sure::is_sure(cell.b, cell.start + Text::SLOT_SIZE * cell.row, k) {
        return rest_matches(fold, text, operand);
    }
    predicate::text::begins_with(fold, text, operand)
}

// The due rows whose texts pass.
pub fn fronts_that_pass(fold: Fold, rows: DueRows, kind: u8, operand: &[u8]) -> u64
    requires { (rows.tag ≡ text_tag) × (of_fronts kind ≡ true) }
    ensures { let r = rows.entry in KeptBy (λ d. text_test kind operand.now (text_of r.b.now r.start (r.base + d))) r.due result }
{
    let (b, start, base) = (rows.b, rows.start, rows.base);
    let k = crate::sure::sure_of(fold, operand);
    sets::kept_where(
        rows.due,
        |d| -> bool
            requires { HasRow b.now text_tag start (base + d) × (of_fronts kind ≡ true) × SureFor operand.now k × Bytes b.now }
            ensures { result ≡ text_test kind operand.entry.now (text_of b.entry.now start (base + d)) }
        {
            let cell = Cell {
                b,
                tag: Column::TEXT_TAG,
                start,
                row: base + usize::from(d),
            };
            row_passes(fold, cell, kind, operand, k)
        },
    )
}
