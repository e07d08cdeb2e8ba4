// One column: its field checked, and the value of one row read in place.
ghost use Rattle.std.specs.Prelude.{◌≡◌, ◌≤◌, length};
ghost use Rattle.fields.specs.Header.{header_at};
ghost use Rattle.slots.specs.Limits.{Limits};
ghost use Rattle.catalogue.specs.Format.{number_tag, text_tag, row_limit};
ghost use Rattle.catalogue.specs.Decode.{column_of};
ghost use Rattle.catalogue.specs.Sound.{SoundColumn};
ghost use Rattle.catalogue.specs.InPlace.{NumberIs, TextIs};

use crate::cell::Cell;
use crate::format::{Column, Number};
use crate::refusal::Refusal;
use fields::header::{Field, read_header};
use slots::slot::Text;

// A column's field, every check of it done; the payload is the bytes from start up to end.
#[derive(Clone, Copy)]
pub enum ColumnField {
    Numbers { start: usize, end: usize },
    Texts { start: usize, end: usize },
}

// The table of limits is lent by the caller, once for all columns.
pub fn read_column(limits: &[u8], b: &[u8], rows: usize, at: usize) -> Result<ColumnField, Refusal>
    requires { Limits limits.now × (at ≤ length b.now) × (rows ≤ row_limit) }
    ensures { (result ≡ column_of b.now rows (header_at b.now at (length b.now))) × SoundColumn b.now rows result }
{
    let Field { tag, start, end } = read_header(b, at, b.len()).ok_or(Refusal::FieldCut)?;
    let size = end - start;
    if tag == Column::NUMBER_TAG && size == Number::SIZE * rows {
        return Ok(ColumnField::Numbers { start, end });
    }
    if tag != Column::TEXT_TAG || size != Text::SLOT_SIZE * rows {
        return Err(Refusal::NotColumn);
    }
    if !slots::slot::slots_are_valid(limits, b, start, rows) {
        return Err(Refusal::BadSlot);
    }
    Ok(ColumnField::Texts { start, end })
}

// The number at a row of a number column.
pub fn number_at(cell: Cell) -> u32
    requires { cell.tag ≡ number_tag }
    ensures { let c = cell.entry in NumberIs c.b.now c.start c.row result }
{
    fields::number::four_bytes(cell.b, cell.start + Number::SIZE * cell.row)
}

// The text at a row of a text column: a part of the catalogue's bytes.
pub fn text_at<'a>(cell: Cell<'a>) -> &'a [u8]
    requires { cell.tag ≡ text_tag }
    ensures { let c = cell.entry in TextIs c.b.now c.start c.row result.now }
{
    let b = cell.b;
    let at = cell.start + Text::SLOT_SIZE * cell.row;
    let size = usize::from(b[at]);
    let from = at + 1;
    let to = from + size;
    &b[from..to]
}
