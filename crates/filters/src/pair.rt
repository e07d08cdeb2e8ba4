// Two of an operand's bytes at their distance, not loose letters (heads::byte_test::is_loose) where others are in
// reach.
ghost use Rattle.std.specs.Prelude.{◌≡◌, cond, ◌||◌, ◌<◌, length};
ghost use Rattle.heads.specs.ByteTest.{is_loose};
ghost use Rattle.filters.specs.Windows.{InReach, PairFor, pair_at};

use heads::byte_test::ByteTest;
use predicate::fold::Fold;

#[derive(Clone, Copy)]
pub struct Pair {
    pub gap: usize,
    pub first: ByteTest,
    pub second: ByteTest,
    // Whether one of the two is a loose letter.
    pub loose: bool,
}

// The first byte that is no loose letter; the operand's first where all are.
// That the operand is not empty is a clause here, of `pair_of`, `contains_rows` and `sift`: a type for it would be made
// once, for `sift`, and its slice taken out again in each.
fn first_place(fold: Fold, operand: &[u8]) -> usize
    requires { (0 < length operand.now) }
    ensures { result < length operand.now }
{
    operand
        .iter()
        .position(|x| !heads::byte_test::is_loose(fold.of(*x)))
        .unwrap_or(0)
}

// The last place of a second byte: at most eight further, so that two windows of 16 cover a slot.
fn last_place(size: usize, first: usize) -> usize
    requires { first < size }
    ensures { InReach size first result }
{
    first + (size - 1 - first).min(8)
}

// The last byte after the first, in reach of it, that is no loose letter; the last in reach where there is none.
fn second_place(fold: Fold, operand: &[u8], first: usize) -> usize
    requires { (first < length operand.now) }
    ensures { InReach (length operand.now) first result }
{
    let last = last_place(operand.len(), first);
    for j in (first + 1..last + 1).rev() {
        if !heads::byte_test::is_loose(fold.of(operand[j])) {
            return j;
        }
    }
    last
}

// By itself, so that a pair is made on one path.
fn either_is_loose(x: u8, y: u8) -> bool
    ensures { result ≡ (is_loose x || is_loose y) }
{
    heads::byte_test::is_loose(x) || heads::byte_test::is_loose(y)
}

// The pair of an operand, its bytes folded.
pub fn pair_of(fold: Fold, operand: &[u8]) -> Pair
    requires { (0 < length operand.now) }
    ensures { PairFor operand.now result }
{
    let i = first_place(fold, operand);
    let j = second_place(fold, operand, i);
    let first = fold.of(operand[i]);
    let second = fold.of(operand[j]);
    let loose = either_is_loose(first, second);
    let gap = j - i;
    Pair {
        gap,
        first: heads::byte_test::tight_test(first),
        second: heads::byte_test::tight_test(second),
        loose,
    }
}

// Whether the pair may stand with its first byte at p and its second at q.
pub fn pair_at(b: &[u8], p: usize, q: usize, k: Pair) -> u8
    requires { (p < length b.now) × (q < length b.now) }
    ensures { result ≡ cond (pair_at b.now p q k) 1 0 }
{
    heads::byte_test::passes(k.first, b[p]) & heads::byte_test::passes(k.second, b[q])
}
