// What a slot's first word tells for sure: that its text begins as an operand does, in the bytes that the word holds.
ghost use Rattle.std.specs.Prelude.{◌≡◌, ◌+◌, ◌≤◌, length};
ghost use Rattle.fronts.specs.Sure.{front_size, is_letter, asked_bits, SureSize, sure_passes, SureFor};

use predicate::fold::Fold;

// A word passes where it has the bits of the value in all places that are asked for.
#[derive(Clone, Copy)]
pub struct Sure {
    pub asked: u64,
    pub value: u64,
}

impl Sure {
    // The bytes of text in a slot's first word, behind the length.
    pub const SIZE: usize = 7;
}

fn is_letter(c: u8) -> bool
    ensures { result ≡ is_letter c }
{
    c.is_ascii_lowercase()
}

// The bits that are asked of a byte that should fold to c: all, but of a letter not bit 5, which tells its cases apart.
fn asked_bits(c: u8) -> u8
    ensures { result ≡ asked_bits c }
{
    if is_letter(c) { 0xdf } else { 0xff }
}

// How many bytes of an operand of n the word has a place for.
fn sure_size(n: usize) -> usize
    ensures { SureSize n result }
{
    n.min(Sure::SIZE)
}

// Of the operand's bytes, the last first; nothing is asked of what lies beyond them.
pub fn sure_of(fold: Fold, operand: &[u8]) -> Sure
    ensures { SureFor operand.now result }
{
    let mut asked: u64 = 0;
    let mut value: u64 = 0;
    let size = sure_size(operand.len());
    for i in (0..size).rev() {
        let c = fold.of(operand[i]);
        asked = 256 * asked + u64::from(asked_bits(c));
        value = 256 * value + u64::from(c);
    }
    // The length lies below them, and nothing is asked of it.
    Sure {
        asked: 256 * asked,
        value: 256 * value,
    }
}

// Whether the text of the slot at p is sure to begin so.
pub fn is_sure(b: &[u8], p: usize, k: Sure) -> bool
    requires { p + front_size ≤ length b.now }
    ensures { result ≡ sure_passes b.now p k }
{
    (words::word_at(b, p) ^ k.value) & k.asked == 0
}
