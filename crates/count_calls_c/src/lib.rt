// The archive of the counts alone: the calls of `count_calls` under the names that C links, each with its contract
// there.
#![tactic(auto)]

ghost use Rattle.std.specs.Prelude.{◌≡◌};
ghost use Rattle.bitmaps.specs.Bitmap.{ones_in};
ghost use Rattle.count_calls.specs.Counted.{counted, counted_lines};

#[unsafe(no_mangle)]
pub extern "C" fn searchroom_count(table: &[u8]) -> u64
    ensures { result ≡ ones_in (counted table.now) }
{
    count_calls::searchroom_count(table)
}

#[unsafe(no_mangle)]
pub extern "C" fn searchroom_count_bytes(table: &[u8]) -> u64
    ensures { result ≡ ones_in (counted table.now) }
{
    count_calls::searchroom_count_bytes(table)
}

#[unsafe(no_mangle)]
pub extern "C" fn searchroom_count_lines(table: &[u8], lines: usize, size: usize) -> u64
    ensures { result ≡ ones_in (counted_lines table.now lines size) }
{
    count_calls::searchroom_count_lines(table, lines, size)
}
