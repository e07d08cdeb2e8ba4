// The check of an order, by the set of the numbers seen.
#![tactic(auto)]

ghost use Rattle.std.specs.Prelude.{◌≡◌, ◌≤◌};
ghost use Rattle.strategy.specs.Order.{is_order};

// Is the order n bytes holding each number below n once.
pub fn is_order(order: &[u8], n: u8) -> bool
    requires { n ≤ 64 }
    ensures { result ≡ is_order n order.now }
{
    let mut seen: u64 = 0;
    for &c in order {
        if n <= c || sets::has(seen, c) {
            return false;
        }
        seen = sets::with(seen, c);
    }
    seen == sets::below(n)
}
