// Lines of a text: a label, a number in decimal digits, and byte 10, written into a lent output.
// Each function writes from `at` on and gives the place behind.
#![tactic(auto)]

ghost use Rattle.std.specs.Prelude.{◌+◌, ◌≤◌, length};
ghost use Rattle.fields.specs.Decimal.{digits_of, decimal};
ghost use Rattle.fields.specs.Output.{Wrote};
ghost use Rattle.lines.specs.Line.{number_room, line, line_room};

// The digits of a number, none for 0. By hand: of std's printing `write!` promises its bytes on Ok alone,
// `InlineText::of` them or a cut text, and this can give neither. The kit's `itoa` would be one library more that is
// taken as built.
fn put_digits(out: &mut [u8], at: usize, x: u64) -> usize
    requires { at + length (digits_of x) ≤ length out.old }
    ensures { Wrote at (digits_of x) out.old result out.new }
{
    if x == 0 {
        return at;
    }
    let last = put_digits(out, at, x / 10);
    // Below 58, so that `as u8` loses nothing.
    out[last] = (48 + x % 10) as u8;
    last + 1
}

pub fn put_number(out: &mut [u8], at: usize, x: u64) -> usize
    requires { at + number_room ≤ length out.old }
    ensures { Wrote at (decimal x) out.old result out.new × (result ≤ at + number_room) }
{
    if x == 0 {
        return fields::output::put(out, at, b"0");
    }
    put_digits(out, at, x)
}

pub fn put_line(out: &mut [u8], at: usize, label: &[u8], x: u64) -> usize
    requires { at + line_room label.now ≤ length out.old }
    ensures { Wrote at (line label.now x) out.old result out.new × (result ≤ at + line_room label.now) }
{
    let number = fields::output::put(out, at, label);
    let end = put_number(out, number, x);
    fields::output::put(out, end, b"\n")
}
