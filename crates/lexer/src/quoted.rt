// Quoted texts.
ghost use Rattle.std.specs.Prelude.{◌≡◌, ◌+◌, ◌-◌, ◌≤◌, ◌<◌, length, drop, MatchOption};
ghost use Rattle.syntax.specs.Spelling.{is_plain};
ghost use Rattle.syntax.specs.Conditions.{hex_value, quoted_ahead};
ghost use Rattle.lexer.specs.Lexed.{EscapeRead, ByteRead, QuotedRead};

// The bytes with a meaning of their own inside quotes.
#[derive(Drop)]
pub struct Quote;

impl Quote {
    pub const END: u8 = b'"';

    pub const ESCAPE: u8 = b'\\';
}

// What stands at a place between quotes: the closing quote, or a byte and the place behind its spelling.
#[derive(Clone, Copy, PartialEq, Eq, Debug)]
pub enum QuotedByte {
    End,
    Byte { x: u8, next: usize },
}

// A whole quoted text: the places behind its closing quote and behind its bytes.
#[derive(Clone, Copy, PartialEq, Eq, Debug)]
pub struct Quoted {
    pub next: usize,
    pub end: usize,
}

// A byte that stands for itself.
fn is_plain(x: u8) -> bool
    ensures { result ≡ is_plain x }
{
    matches!(x, b' '..=b'~') && x != Quote::END && x != Quote::ESCAPE
}

// The value of a digit 0-9A-F.
fn hex_value(x: u8) -> Option<u8>
    ensures { MatchOption result (hex_value x ≡ 16) (λ value. (value ≡ hex_value x) × (value < 16)) }
{
    match x {
        b'0'..=b'9' => Some(x - b'0'),
        b'A'..=b'F' => Some(x - b'A' + 10),
        _ => None,
    }
}

// A backslash at a place, and two digits behind it for a byte that is not plain.
fn read_escape(text: &[u8], at: usize) -> Option<QuotedByte>
    requires { at < length text.now }
    ensures { EscapeRead text.now at result }
{
    let high = hex_value(*text.get(at + 1)?)?;
    let low = hex_value(*text.get(at + 2)?)?;
    let x = high * 16 + low;
    if is_plain(x) {
        return None;
    }
    Some(QuotedByte::Byte { x, next: at + 3 })
}

fn read_byte(text: &[u8], at: usize) -> Option<QuotedByte>
    ensures { ByteRead text.now at result }
{
    match *text.get(at)? {
        Quote::END => Some(QuotedByte::End),
        Quote::ESCAPE => read_escape(text, at),
        x if is_plain(x) => Some(QuotedByte::Byte { x, next: at + 1 }),
        _ => None,
    }
}

// The bytes from behind an opening quote up to the closing one, written to the output from a place on.
pub fn read_quoted(text: &[u8], from: usize, out: &mut [u8], to: usize) -> Option<Quoted>
    requires { (from ≤ length text.now) × (to + (length text.now - from) ≤ length out.old) }
    ensures { QuotedRead text.now from (quoted_ahead (drop from text.now)) to out.old result out.new }
{
    let mut at = from;
    let mut end = to;
    while let QuotedByte::Byte { x, next } = read_byte(text, at)? {
        out[end] = x;
        end += 1;
        at = next;
    }
    Some(Quoted { next: at + 1, end })
}
