// The ones of a table: of eight bytes as one number where eight remain, and of the bytes at the tail.
ghost use Rattle.std.specs.Prelude.{◌≡◌, ◌*◌, ◌^◌, ◌≤◌, ◌<◌, length};
ghost use Rattle.std.specs.Int.Count.{ones};
ghost use Rattle.bitmaps.specs.Bitmap.{ones_in};

use crate::bytes::count_bytes;
use bitmaps::word::Word;

pub fn ones_of_word(x: u64) -> u64
    ensures { (result ≡ ones x) × (result ≤ 64) }
{
    u64::from(x.count_ones())
}

// The number of ones in a table, word by word.
pub fn count_ones(table: &[u8]) -> u64
    requires { length table.now < 2 ^ 61 }
    ensures { (result ≡ ones_in table.now) × (result ≤ 8 * length table.now) }
{
    let (words, tail) = table.as_chunks::<{ Word::SIZE }>();
    let mut sum = 0;
    for word in words {
        sum += ones_of_word(u64::from_le_bytes(*word));
    }
    sum + count_bytes(tail)
}
