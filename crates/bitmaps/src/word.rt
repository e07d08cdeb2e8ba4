// A block of 64 rows as one word: bit d is the block's row d.
ghost use Rattle.std.specs.Prelude.{◌≡◌, ◌+◌, ◌≤◌, length};
ghost use Rattle.bitmaps.specs.Word.{word_size, WordPut, rows_set};

#[derive(Drop)]
pub struct Word;

impl Word {
    pub const ROWS: usize = 64;

    pub const SIZE: usize = 8;
}

// Puts the bits of x into a table from a byte on: document 01's row rule for 64 rows, the least significant byte first.
// The whole table is lent, with the place: `WordPut` says of its other bits that they stay, which each caller would
// else prove. The tables differ in size: one line for the rows selected, 64 or 128 for the marks.
pub fn put_word(table: &mut [u8], at: usize, x: u64)
    requires { at + word_size ≤ length table.old }
    ensures { WordPut table.old at x table.new }
{
    table[at..at + Word::SIZE].copy_from_slice(&x.to_le_bytes());
}

// The rows of a block at which so many rows are left: 64 at most, so that their number fits a byte.
pub fn rows_of(left: usize) -> u64
    ensures { result ≡ rows_set left }
{
    sets::below(left.min(Word::ROWS) as u8)
}
