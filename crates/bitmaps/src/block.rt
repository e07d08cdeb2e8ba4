// Where a block of 64 rows begins.
ghost use Rattle.bitmaps.specs.Word.{BlockAt};

// The first row of a block: the block's bits are a word of each line.
#[derive(Clone, Copy)]
pub struct Base {
    pub row: usize,
    pub ghost block: { BlockAt row },
}
