// What a range asks, as a lowest number and how many follow it.
ghost use Rattle.std.specs.Prelude.{◌≡◌, true};
ghost use Rattle.predicate.specs.Kinds.{range_kind};
ghost use Rattle.predicate.specs.Payload.{operand_fits};
ghost use Rattle.scan.specs.Met.{RangeFor};

use catalogue::format::Number;
use numbers::range::Range;

pub fn range_of(operand: &[u8]) -> Range
    requires { operand_fits range_kind operand.now ≡ true }
    ensures { RangeFor operand.now result }
{
    let low = fields::number::four_bytes(operand, 0);
    let high = fields::number::four_bytes(operand, Number::SIZE);
    let width = high - low;
    Range { low, width }
}
