// Writing an output, piece by piece.
ghost use Rattle.std.specs.Prelude.{◌+◌, ◌≤◌, length};
ghost use Rattle.fields.specs.Output.{Wrote};

// Writes a piece from `at` on and gives the place behind it.
pub fn put(out: &mut [u8], at: usize, piece: &[u8]) -> usize
    requires { at + length piece.now ≤ length out.old }
    ensures { Wrote at piece.now out.old result out.new }
{
    let end = at + piece.len();
    out[at..end].copy_from_slice(piece);
    end
}
