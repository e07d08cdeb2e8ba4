// A reader's number in the tally, our counter: eight bytes.
ghost use Rattle.std.specs.Prelude.{◌≡◌, ◌+◌, ◌≤◌, length};
ghost use Rattle.fields.specs.Numbers.{number_at, bytes_of};
ghost use Rattle.fields.specs.Output.{put_at};

#[derive(Drop)]
pub struct Counter;

impl Counter {
    pub const SIZE: usize = 8;

    pub const LIMIT: u64 = 0xffff_ffff_ffff_ffff;
}

// The number of the eight bytes at a place; it compiles to one load.
pub fn eight_bytes(b: &[u8], at: usize) -> u64
    requires { at + 8 ≤ length b.now }
    ensures { result ≡ number_at b.now at 8 }
{
    u64::from_be_bytes([
        b[at],
        b[at + 1],
        b[at + 2],
        b[at + 3],
        b[at + 4],
        b[at + 5],
        b[at + 6],
        b[at + 7],
    ])
}

// Writes a number to the eight bytes at a place.
pub fn put_eight_bytes(b: &mut [u8], at: usize, x: u64)
    requires { at + 8 ≤ length b.old }
    ensures { b.new ≡ put_at at (bytes_of 8 x) b.old }
{
    crate::output::put(b, at, &x.to_be_bytes());
}
