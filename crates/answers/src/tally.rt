// The tally, a counter for each reader; the contracts tie these constants to `reader_limit` and `tally_size` of
// demands/specs/Run.antt.
use fields::counter::Counter;

#[derive(Drop)]
pub struct Reader;

impl Reader {
    pub const LIMIT: u64 = 16;
}

#[derive(Drop)]
pub struct Tally;

impl Tally {
    pub const SIZE: usize = Reader::LIMIT as usize * Counter::SIZE;
}
