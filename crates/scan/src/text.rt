// A text predicate at the due rows.
ghost use Rattle.std.specs.Prelude.{◌≡◌, ◌+◌};
ghost use Rattle.catalogue.specs.Format.{text_tag};
ghost use Rattle.catalogue.specs.InPlace.{HasRow};
ghost use Rattle.predicate.specs.Meaning.{text_test, text_blank};
ghost use Rattle.sets.specs.Kept.{KeptBy};
ghost use Rattle.heads.specs.Block.{text_of};

use catalogue::cell::Cell;
use catalogue::format::Column;
use heads::rows::DueRows;
use predicate::fold::Fold;

// The due rows whose texts are blank.
pub fn texts_blank(rows: DueRows) -> u64
    requires { rows.tag ≡ text_tag }
    ensures { let r = rows.entry in KeptBy (λ d. text_blank (text_of r.b.now r.start (r.base + d))) r.due result }
{
    heads::front::front_rows(rows, heads::head::blank_head())
}

// The due rows whose texts pass the test of a kind below the opposites, each text handed on as a part. The way of
// contains, and of one row alone.
fn texts_one_by_one(fold: Fold, rows: DueRows, kind: u8, operand: &[u8]) -> u64
    requires { rows.tag ≡ text_tag }
    ensures { let r = rows.entry in KeptBy (λ d. text_test kind operand.now (text_of r.b.now r.start (r.base + d))) r.due result }
{
    let (b, start, base) = (rows.b, rows.start, rows.base);
    sets::kept_where(
        rows.due,
        |d| -> bool
            requires { HasRow b.now text_tag start (base + d) }
            ensures { result ≡ text_test kind operand.entry.now (text_of b.entry.now start (base + d)) }
        {
            let text = catalogue::column::text_at(Cell {
                b,
                tag: Column::TEXT_TAG,
                start,
                row: base + usize::from(d),
            });
            predicate::text::text_test(fold, kind, operand, text)
        },
    )
}

// The same rows, those of equals and begins by the texts' fronts.
pub fn texts_that_pass(fold: Fold, rows: DueRows, kind: u8, operand: &[u8]) -> u64
    requires { rows.tag ≡ text_tag }
    ensures { let r = rows.entry in KeptBy (λ d. text_test kind operand.now (text_of r.b.now r.start (r.base + d))) r.due result }
{
    // A filter leaves no row of most blocks.
    if rows.due == 0 {
        return 0;
    }
    // For one row alone a front costs more to make than it saves.
    if fronts::of_fronts(kind) && sets::rest(rows.due) != 0 {
        return fronts::fronts_that_pass(fold, rows, kind, operand);
    }
    texts_one_by_one(fold, rows, kind, operand)
}
