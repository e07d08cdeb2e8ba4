// The counts alone, as calls of an archive of their own, for the benchmark and the tests: no part of the engine.
// Tables, lines and sizes come as C lends them.
#![tactic(auto)]

ghost use Rattle.std.specs.Prelude.{◌≡◌};
ghost use Rattle.bitmaps.specs.Bitmap.{ones_in};
ghost use Rattle.count_calls.specs.Counted.{counted, counted_lines};

use bitmaps::copy::{Line, Lines};

// The longest table.
#[derive(Drop)]
pub struct Table;

impl Table {
    pub const LIMIT: usize = 16_384;
}

fn front(table: &[u8]) -> &[u8]
    ensures { result.now ≡ counted table.now }
{
    &table[..Table::LIMIT.min(table.len())]
}

// The ones of a table, a word at a time.
pub fn searchroom_count(table: &[u8]) -> u64
    ensures { result ≡ ones_in (counted table.now) }
{
    counts::ones::count_ones(front(table))
}

// The same byte by byte, as counts were taken before order 3.
pub fn searchroom_count_bytes(table: &[u8]) -> u64
    ensures { result ≡ ones_in (counted table.now) }
{
    counts::bytes::count_bytes(front(table))
}

// The ones of the first bytes of each of a table's first lines; a run counts its looks so, up to the end of a word.
pub fn searchroom_count_lines(table: &[u8], lines: usize, size: usize) -> u64
    ensures { result ≡ ones_in (counted_lines table.now lines size) }
{
    let whole = front(table);
    counts::lines::count_lines(Lines {
        table: whole,
        n: lines.min(whole.len() / Line::SIZE),
        size: size.min(Line::SIZE),
    })
}
