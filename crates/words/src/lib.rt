// Eight bytes as one word, or four: a number with the least significant byte first.
#![tactic(auto)]

ghost use Rattle.std.specs.Prelude.{◌≡◌, ◌+◌, ◌^◌, ◌≤◌, ◌<◌, length};
ghost use Rattle.words.specs.Words.{word_at};

// The place stands beside the bytes, as in `word_at` of specs/: callers read one table at many places.

// The four bytes at a place.
pub fn half_at(b: &[u8], at: usize) -> u64
    requires { at + 4 ≤ length b.now }
    ensures { (result ≡ word_at b.now at 4) × (result < 2 ^ 32) }
{
    u64::from(u32::from_le_bytes([b[at], b[at + 1], b[at + 2], b[at + 3]]))
}

// The word at a place; it compiles to one load.
pub fn word_at(b: &[u8], at: usize) -> u64
    requires { at + 8 ≤ length b.now }
    ensures { result ≡ word_at b.now at 8 }
{
    u64::from_le_bytes([
        b[at],
        b[at + 1],
        b[at + 2],
        b[at + 3],
        b[at + 4],
        b[at + 5],
        b[at + 6],
        b[at + 7],
    ])
}
