// The texts with a byte from 128 on. A length is at most 23 and what fills a slot up is zero, so whole slots are
// looked at.
ghost use Rattle.std.specs.Prelude.{◌≡◌, ◌+◌, ◌≤◌, length};
ghost use Rattle.catalogue.specs.Format.{text_tag};
ghost use Rattle.catalogue.specs.InPlace.{HasRow};
ghost use Rattle.slots.specs.Slots.{slot_size};
ghost use Rattle.sets.specs.Kept.{KeptBy};
ghost use Rattle.heads.specs.Block.{slot_of};
ghost use Rattle.filters.specs.NonAscii.{non_ascii_in};

use heads::rows::DueRows;
use slots::slot::Text;

// The slot at p.
fn slot_has_non_ascii(b: &[u8], p: usize) -> bool
    requires { p + slot_size ≤ length b.now }
    ensures { result ≡ non_ascii_in b.now p slot_size }
{
    let mut any: u8 = 0;
    for i in 0..Text::SLOT_SIZE {
        any |= u8::from(128 <= b[p + i]);
    }
    any != 0
}

// The due rows whose slots have such a byte.
pub fn non_ascii_rows(rows: DueRows) -> u64
    requires { rows.tag ≡ text_tag }
    ensures { let r = rows.entry in KeptBy (λ d. non_ascii_in r.b.now (slot_of r.start (r.base + d)) slot_size) r.due result }
{
    let (b, start, base) = (rows.b, rows.start, rows.base);
    sets::kept_where(
        rows.due,
        |d| -> bool
            requires { HasRow b.now text_tag start (base + d) }
            ensures { result ≡ non_ascii_in b.entry.now (slot_of start (base + d)) slot_size }
        { slot_has_non_ascii(b, start + Text::SLOT_SIZE * (base + usize::from(d))) },
    )
}
