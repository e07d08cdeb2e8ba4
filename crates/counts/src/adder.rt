// Words added bit by bit, so that fewer have to be counted.
ghost use Rattle.std.specs.Prelude.{◌≡◌, ◌+◌, ◌*◌, ◌≤◌};
ghost use Rattle.std.specs.Int.Count.{ones};

use crate::ones::ones_of_word;

// What a full adder gives, for all 64 bits at once.
#[derive(Clone, Copy)]
struct Added {
    sum: u64,
    carry: u64,
}

// Two words with the ones of three, those of the carry counted twice.
fn full_adder(x: u64, y: u64, z: u64) -> Added
    ensures { ones x + ones y + ones z ≡ ones result.sum + 2 * ones result.carry }
{
    let differ = x ^ y;
    Added {
        sum: differ ^ z,
        carry: (x & y) | (differ & z),
    }
}

// The ones of seven words. At each bit they add up to a number of three binary digits: three words to count, of ones,
// twos and fours.
pub fn ones_of_seven(a: u64, b: u64, c: u64, d: u64, e: u64, f: u64, g: u64) -> u64
    ensures { (result ≡ ones a + ones b + ones c + ones d + ones e + ones f + ones g) × (result ≤ 7 * 64) }
{
    let first = full_adder(a, b, c);
    let second = full_adder(d, e, f);
    let third = full_adder(first.sum, second.sum, g);
    let twos = full_adder(first.carry, second.carry, third.carry);
    ones_of_word(third.sum) + 2 * ones_of_word(twos.sum) + 4 * ones_of_word(twos.carry)
}
