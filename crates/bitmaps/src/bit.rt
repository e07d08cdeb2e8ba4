// A bit of a table.
ghost use Rattle.std.specs.Prelude.{◌≡◌, ◌/◌, ◌<◌, length};
ghost use Rattle.bitmaps.specs.Bit.{bit};

// The row is a number beside the table: `register` asks of one row after another of the same table.
pub fn is_marked(table: &[u8], row: usize) -> bool
    requires { row / 8 < length table.now }
    ensures { result ≡ bit table.now row }
{
    (table[row / 8] >> (row % 8)) % 2 == 1
}
