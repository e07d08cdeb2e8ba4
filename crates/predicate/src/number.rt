// The tests of a number.
ghost use Rattle.std.specs.Prelude.{◌≡◌};
ghost use Rattle.predicate.specs.Meaning.{between, number_test};
ghost use Rattle.predicate.specs.Outcome.{HasRange};

use crate::kind::Kind;
use catalogue::format::Number;

pub fn is_between(low: u32, high: u32, n: u32) -> bool
    ensures { result ≡ between low high n }
{
    (low..=high).contains(&n)
}

// The test of a kind below the opposites.
pub fn number_test(kind: u8, operand: &[u8], n: u32) -> bool
    requires { HasRange kind operand.now }
    ensures { result ≡ number_test kind operand.now n }
{
    match kind {
        Kind::RANGE => {
            let low = fields::number::four_bytes(operand, 0);
            let high = fields::number::four_bytes(operand, Number::SIZE);
            is_between(low, high, n)
        }
        Kind::NUMBER_BLANK => n == Number::BLANK,
        _ => false,
    }
}
