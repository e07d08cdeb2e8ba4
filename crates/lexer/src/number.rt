// Decimal numbers.
ghost use Rattle.std.specs.Prelude.{◌^◌, ◌≤◌, ◌<◌, length, drop};
ghost use Rattle.syntax.specs.Conditions.{number_ahead};
ghost use Rattle.lexer.specs.Lexed.{NumberRead};

// A number that was read, and the place behind it.
#[derive(Clone, Copy, PartialEq, Eq, Debug)]
pub struct Number {
    pub number: u64,
    pub next: usize,
}

// The number at a place of the text, up to a limit and without leading zeros.
pub fn read_number(text: &[u8], at: usize, limit: u64) -> Option<Number>
    requires { (at ≤ length text.now) × (9 ≤ limit) × (limit < 2 ^ 32) }
    ensures { NumberRead text.now at limit (number_ahead limit (drop at text.now)) result }
{
    let first = *text.get(at)?;
    if first == b'0' {
        return Some(Number {
            number: 0,
            next: at + 1,
        });
    }
    if !first.is_ascii_digit() {
        return None;
    }
    let mut number = u64::from(first - b'0');
    for next in at + 1..text.len() {
        let digit = text[next];
        if !digit.is_ascii_digit() {
            return Some(Number { number, next });
        }
        number = number * 10 + u64::from(digit - b'0');
        if limit < number {
            return None;
        }
    }
    Some(Number {
        number,
        next: text.len(),
    })
}
