// The filter of contains: the pair anywhere in the slot, in two windows of 16 bytes that cover it. Both windows are
// tested by one loop of constant length, which becomes vector code.
ghost use Rattle.std.specs.Prelude.{◌≡◌, ◌+◌, ◌≤◌, length};
ghost use Rattle.catalogue.specs.Format.{text_tag};
ghost use Rattle.catalogue.specs.InPlace.{HasRow};
ghost use Rattle.slots.specs.Slots.{slot_size};
ghost use Rattle.sets.specs.Kept.{KeptBy};
ghost use Rattle.heads.specs.Block.{slot_of};
ghost use Rattle.filters.specs.Windows.{windows_pass};

use crate::pair::Pair;
use heads::rows::DueRows;
use slots::slot::Text;

// The slot at p. The pair's two places run from p and q on in the first window, from r and s on in the second, which
// ends with the slot. A flag for each window: with one for both the compiler unrolls the loop and no longer inlines
// the function.
fn slot_passes(b: &[u8], p: usize, k: Pair) -> bool
    requires { (p + slot_size ≤ length b.now) × (k.gap ≤ 8) }
    ensures { result ≡ windows_pass b.now p k }
{
    let q = p + k.gap;
    let s = p + 8;
    let r = s - k.gap;
    let mut front: u8 = 0;
    let mut back: u8 = 0;
    for i in 0..16 {
        front |= crate::pair::pair_at(b, p + i, q + i, k);
        back |= crate::pair::pair_at(b, r + i, s + i, k);
    }
    front | back != 0
}

// The due rows whose slots pass, by the shorter way.
pub fn windows_rows(rows: DueRows, k: Pair) -> u64
    requires { (rows.tag ≡ text_tag) × (k.gap ≤ 8) }
    ensures { let r = rows.entry in KeptBy (λ d. windows_pass r.b.now (slot_of r.start (r.base + d)) k) r.due result }
{
    let (b, start, base) = (rows.b, rows.start, rows.base);
    let passes = |d| -> bool
        requires { HasRow b.now text_tag start (base + d) × (k.gap ≤ 8) }
        ensures { result ≡ windows_pass b.entry.now (slot_of start (base + d)) k }
    { slot_passes(b, start + Text::SLOT_SIZE * (base + usize::from(d)), k) };
    if rows.due == sets::below(64) {
        sets::all_in_turn(passes)
    } else {
        sets::kept_where(rows.due, passes)
    }
}
