// The filter of equals and begins: the due rows whose slots have a head that passes.
ghost use Rattle.std.specs.Prelude.{◌≡◌, ◌+◌};
ghost use Rattle.catalogue.specs.Format.{text_tag};
ghost use Rattle.catalogue.specs.InPlace.{HasRow};
ghost use Rattle.sets.specs.Kept.{KeptBy};
ghost use Rattle.heads.specs.Block.{HasDueRows, slot_of};
ghost use Rattle.heads.specs.Head.{head_passes};

use crate::head::Head;
use crate::rows::DueRows;
use slots::slot::Text;

// The due rows whose heads pass, by the shorter way. Not inlined: where the compiler sees the head of a blank it
// joins the halves of a block in lanes of 64 bits.
#[inline(never)]
pub fn front_rows(rows: DueRows, k: Head) -> u64
    requires { rows.tag ≡ text_tag }
    ensures { let r = rows.entry in KeptBy (λ d. head_passes r.b.now (slot_of r.start (r.base + d)) k) r.due result }
{
    let (b, start, base) = (rows.b, rows.start, rows.base);
    sets::met_where(
        rows.due,
        |d| -> bool
            requires { HasRow b.now text_tag start (base + d) }
            ensures { result ≡ head_passes b.entry.now (slot_of start (base + d)) k }
        { crate::head::head_passes(b, start + Text::SLOT_SIZE * (base + usize::from(d)), k) },
    )
}
