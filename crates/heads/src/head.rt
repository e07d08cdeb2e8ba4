// What equals and begins ask of a slot's head: its length and the first three bytes of its text, as one number with
// the least significant byte first.
ghost use Rattle.std.specs.Prelude.{◌≡◌, ◌+◌, ◌≤◌, length};
ghost use Rattle.slots.specs.Slots.{text_limit};
ghost use Rattle.heads.specs.Head.{head_size, head_passes, TestFor, HeadFor, BlankHeadIs};

use crate::byte_test::ByteTest;
use predicate::fold::Fold;
use predicate::kind::Kind;

// A slot passes where its head has the value's bits in all places that are asked for. Its twin at 64 bits is `Sure`
// of crate `fronts`: one type for both would need a trait of the operators and of the reading, and is no plainer.
#[derive(Clone, Copy)]
pub struct Head {
    pub asked: u32,
    pub value: u32,
}

impl Head {
    // The bytes of a head.
    pub const SIZE: usize = 4;
}

// What byte j of the slot may be. Equals asks for the operand's length; a byte of the text may be any that folds as the
// operand's; nothing else is asked.
fn test_at(fold: Fold, kind: u8, operand: &[u8], j: usize) -> ByteTest
    requires { (length operand.now ≤ text_limit) }
    ensures { TestFor kind operand.now j result }
{
    if j == 0 {
        if kind == Kind::EQUALS {
            return ByteTest {
                mask: 0,
                value: operand.len() as u8,
            };
        }
        return crate::byte_test::any_byte();
    }
    if operand.len() < j {
        return crate::byte_test::any_byte();
    }
    let c = fold.of(operand[j - 1]);
    crate::byte_test::loose_test(c)
}

// The tests of the four bytes as one, the last byte's first: what they leave open is not asked for.
// That the operand is short is a clause, as in crate `filters` that it is not empty: `head_of` asks the one alone,
// `contains_rows` the other, and a type of operands that are both would ask more of each.
pub fn head_of(fold: Fold, kind: u8, operand: &[u8]) -> Head
    requires { (length operand.now ≤ text_limit) }
    ensures { HeadFor kind operand.now result }
{
    let mut left_open: u32 = 0;
    let mut value: u32 = 0;
    for j in (0..Head::SIZE).rev() {
        let next = test_at(fold, kind, operand, j);
        left_open = 256 * left_open + u32::from(next.mask);
        value = 256 * value + u32::from(next.value);
    }
    Head {
        asked: 0xffff_ffff ^ left_open,
        value,
    }
}

// The head that blanks have, and no others: a length of 0.
pub fn blank_head() -> Head
    ensures { BlankHeadIs result }
{
    Head {
        asked: 0xff,
        value: 0,
    }
}

// Whether the head of the slot at p passes.
pub fn head_passes(b: &[u8], p: usize, k: Head) -> bool
    requires { p + head_size ≤ length b.now }
    ensures { result ≡ head_passes b.now p k }
{
    (words::half_at(b, p) as u32 ^ k.value) & k.asked == 0
}
