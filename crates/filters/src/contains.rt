// The filter of contains: two bytes of the operand at their distance. Where one of them is a loose letter, every text
// with a byte from 128 on besides, since that may be its accented form.
ghost use Rattle.std.specs.Prelude.{◌≡◌, ◌+◌, ◌<◌, length};
ghost use Rattle.catalogue.specs.Format.{text_tag};
ghost use Rattle.predicate.specs.Meaning.{contains};
ghost use Rattle.sets.specs.Kept.{Sifted};
ghost use Rattle.heads.specs.Block.{text_of};

use heads::rows::DueRows;
use predicate::fold::Fold;

// The due rows whose texts may contain the operand.
pub fn contains_rows(fold: Fold, rows: DueRows, operand: &[u8]) -> u64
    requires { (rows.tag ≡ text_tag) × (0 < length operand.now) }
    ensures { let r = rows.entry in Sifted (λ d. contains operand.now (text_of r.b.now r.start (r.base + d))) r.due result }
{
    let k = crate::pair::pair_of(fold, operand);
    let tight = crate::windows::windows_rows(rows, k);
    if k.loose {
        return tight | crate::non_ascii::non_ascii_rows(rows);
    }
    tight
}
