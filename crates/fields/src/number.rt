// Unsigned numbers in bytes, the most significant byte first. The place stands beside the bytes, as in `number_at` and
// `Wrote`: a reader goes from place to place of one slice, and a writer is told that the other bytes stay.
ghost use Rattle.std.specs.Prelude.{◌≡◌, ◌+◌, ◌≤◌, ◌<◌, length};
ghost use Rattle.fields.specs.Numbers.{number_at, bytes_of};
ghost use Rattle.fields.specs.Output.{Wrote};

// The number of two bytes at a place.
pub fn two_bytes(b: &[u8], at: usize) -> usize
    requires { at + 2 ≤ length b.now }
    ensures { (result ≡ number_at b.now at 2) × (result < 65536) }
{
    usize::from(u16::from_be_bytes([b[at], b[at + 1]]))
}

// The number of four bytes at a place.
pub fn four_bytes(b: &[u8], at: usize) -> u32
    requires { at + 4 ≤ length b.now }
    ensures { result ≡ number_at b.now at 4 }
{
    u32::from_be_bytes([b[at], b[at + 1], b[at + 2], b[at + 3]])
}

// Writes a number to the two bytes at a place and gives the place behind them.
pub fn put_two_bytes(out: &mut [u8], at: usize, x: usize) -> usize
    requires { at + 2 ≤ length out.old }
    ensures { Wrote at (bytes_of 2 x) out.old result out.new }
{
    crate::output::put(out, at, &((x % 0x1_0000) as u16).to_be_bytes())
}

// The same with the four bytes at a place.
pub fn put_four_bytes(out: &mut [u8], at: usize, x: u64) -> usize
    requires { at + 4 ≤ length out.old }
    ensures { Wrote at (bytes_of 4 x) out.old result out.new }
{
    crate::output::put(out, at, &((x % 0x1_0000_0000) as u32).to_be_bytes())
}
