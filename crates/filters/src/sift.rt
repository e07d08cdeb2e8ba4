// The filter of each text kind that has an operand.
ghost use Rattle.std.specs.Prelude.{◌≡◌, ◌+◌, ◌≤◌, ◌<◌, length};
ghost use Rattle.catalogue.specs.Format.{text_tag};
ghost use Rattle.slots.specs.Slots.{text_limit};
ghost use Rattle.predicate.specs.Kinds.{equals_kind, contains_kind};
ghost use Rattle.predicate.specs.Meaning.{text_test};
ghost use Rattle.sets.specs.Kept.{Sifted};
ghost use Rattle.heads.specs.Block.{text_of};

use heads::rows::DueRows;
use predicate::fold::Fold;
use predicate::kind::Kind;

// The due rows whose texts may pass the test of kind 2, 3 or 4 by the operand.
pub fn sift(fold: Fold, rows: DueRows, kind: u8, operand: &[u8]) -> u64
    requires { (rows.tag ≡ text_tag) × (equals_kind ≤ kind) × (kind ≤ contains_kind)
        × (0 < length operand.now) × (length operand.now ≤ text_limit) }
    ensures { let r = rows.entry in Sifted (λ d. text_test kind operand.now (text_of r.b.now r.start (r.base + d))) r.due result }
{
    if kind == Kind::CONTAINS {
        return crate::contains::contains_rows(fold, rows, operand);
    }
    let k = heads::head::head_of(fold, kind, operand);
    heads::front::front_rows(rows, k)
}
