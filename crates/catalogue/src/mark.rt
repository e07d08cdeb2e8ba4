// Order 6's withdrawal mark: the field that may follow the last column.
ghost use Rattle.std.specs.Prelude.{◌≡◌, ◌≤◌, length};
ghost use Rattle.bitmaps.specs.Bitmap.{bytes_for};
ghost use Rattle.catalogue.specs.Format.{row_limit};
ghost use Rattle.catalogue.specs.Mark.{stray_bit, mark_field_at};
ghost use Rattle.catalogue.specs.Sound.{SoundMark};

use crate::format::Mark;
use crate::refusal::Refusal;
use fields::header::{Field, read_header};

// Is a bit behind that of the last row a one.
fn has_stray_bit(mark: &[u8], rows: usize) -> bool
    requires { length mark.now ≡ bytes_for rows }
    ensures { result ≡ stray_bit mark.now rows }
{
    let used = rows % 8;
    used != 0 && 1u8 << used <= mark[rows / 8]
}

// Checks what follows the last column, which ends at this place: a mark, whose bytes are those from the place given to
// the end of the catalogue, or nothing.
pub fn read_mark(b: &[u8], rows: usize, at: usize) -> Result<Option<usize>, Refusal>
    requires { (at ≤ length b.now) × (rows ≤ row_limit) }
    ensures { (result ≡ mark_field_at b.now rows at) × SoundMark b.now rows result }
{
    if at == b.len() {
        return Ok(None);
    }
    if b[at] != Mark::TAG {
        return Err(Refusal::BytesLeftOver);
    }
    let Field { start, end, .. } = read_header(b, at, b.len()).ok_or(Refusal::FieldCut)?;
    if end - start != bitmaps::size::bytes_for(rows) || has_stray_bit(&b[start..end], rows) {
        return Err(Refusal::BadMark);
    }
    if end != b.len() {
        return Err(Refusal::BytesLeftOver);
    }
    Ok(Some(start))
}
