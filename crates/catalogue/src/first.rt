// The first field of a catalogue: how many rows and columns it has.
ghost use Rattle.std.specs.Prelude.{◌≡◌, length};
ghost use Rattle.fields.specs.Header.{header_at};
ghost use Rattle.catalogue.specs.Decode.{first_field_of};
ghost use Rattle.catalogue.specs.Sound.{SoundFirst};

use crate::format::{Column, FirstField, Row};
use crate::refusal::Refusal;
use fields::header::{Field, read_header};

// What the first field tells; the columns begin at next. Its limits are no ghost field, but said by `SoundFirst`: the
// definition `counts_at` makes such a value too, and would have to carry their proof.
#[derive(Clone, Copy)]
pub struct Counts {
    pub rows: usize,
    pub columns: usize,
    pub next: usize,
}

pub fn read_first(b: &[u8]) -> Result<Counts, Refusal>
    ensures { (result ≡ first_field_of b.now (header_at b.now 0 (length b.now))) × SoundFirst b.now result }
{
    let Field { tag, start, end } = read_header(b, 0, b.len()).ok_or(Refusal::FieldCut)?;
    if tag != FirstField::TAG || end - start != FirstField::SIZE {
        return Err(Refusal::NotCatalogue);
    }
    let rows = fields::number::two_bytes(b, start);
    let columns = usize::from(b[start + 2]);
    if Row::LIMIT < rows || !(1..=Column::LIMIT).contains(&columns) {
        return Err(Refusal::CountsOutOfRange);
    }
    Ok(Counts {
        rows,
        columns,
        next: end,
    })
}
