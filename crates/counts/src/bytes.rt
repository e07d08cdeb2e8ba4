// The ones of a table, byte by byte.
ghost use Rattle.std.specs.Prelude.{◌≡◌, ◌*◌, ◌^◌, ◌≤◌, ◌<◌, length};
ghost use Rattle.bitmaps.specs.Bitmap.{ones_in};

// The number of ones in a table, byte by byte; a table of 2^61 bytes or more could have too many for a u64. All four
// counts ask it, and no type says it: `register` and `count_each_line` count a part of a table at each step, and would
// wrap each part for the one call.
pub fn count_bytes(table: &[u8]) -> u64
    requires { length table.now < 2 ^ 61 }
    ensures { (result ≡ ones_in table.now) × (result ≤ 8 * length table.now) }
{
    let mut sum = 0;
    for x in table {
        sum += u64::from(x.count_ones());
    }
    sum
}
