// The checks of a request that need no work.
#![tactic(auto)]

ghost use Rattle.std.specs.Prelude.{◌≡◌, ◌≤◌};
ghost use Rattle.bitmaps.specs.Table.{line_size};
ghost use Rattle.query.specs.Format.{predicate_limit};
ghost use Rattle.answers.specs.Refusal.{refusal_in};
ghost use Rattle.answers.specs.Checks.{refusal_by};
ghost use Rattle.demands.specs.Run.{request_checks};

use answers::refusal::Refusal;
use answers::tally::Reader;

// The first check that fails refuses. A line of bits has this size, the lent tables are so long: `listed` and `looks`
// are those lengths alone, since no byte of a table is read here. The bounds of n and size stay clauses, and no type
// has them: `bytes_for` and `begin` give both as numbers, and as numbers they are compared and multiplied at once.
pub fn check_request(
    order: &[u8],
    n: usize,
    size: usize,
    reader: u64,
    listed: usize,
    looks: usize,
) -> Result<(), Refusal>
    requires { (n ≤ predicate_limit) × (size ≤ line_size) }
    ensures { refusal_in result ≡ refusal_by (request_checks n size order.now reader listed looks) }
{
    // A byte: n is at most 64.
    if !orders::is_order(order, n as u8) {
        return Err(Refusal::NotOrder);
    }
    if listed < size {
        return Err(Refusal::TableTooShort);
    }
    if looks < n * size {
        return Err(Refusal::TableTooShort);
    }
    if Reader::LIMIT <= reader {
        return Err(Refusal::NoSuchReader);
    }
    Ok(())
}
