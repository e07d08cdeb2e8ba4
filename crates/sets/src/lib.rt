// A set of numbers below 64, held as the bits of a u64.
// A loop over the numbers of a set x is `for d in Numbers(x)`: it takes first(x) and goes on with rest(x).
#![tactic(auto)]

ghost use Rattle.std.specs.Prelude.{ℕ, ◌≡◌, cond, ◌+◌, ◌*◌, ◌^◌, ◌≤◌, ◌<◌};
ghost use Rattle.sets.specs.Set.{has, one_set, below_set, set_minus, set_with};
ghost use Rattle.sets.specs.Kept.{FirstIs, RestIs, MayAsk, KeptWhere};
ghost use Rattle.sets.specs.Gathered.{bit_of, HalfWhere};

pub mod numbers;

// No type says `d < 64`, which `has`, `single` and `with` ask: what their callers have is a byte of an order or a
// counter, and they ask once of each.

// Is d in the set.
pub fn has(x: u64, d: u8) -> bool
    requires { d < 64 }
    ensures { result ≡ has x d }
{
    x >> d & 1 == 1
}

// The set of d alone.
pub fn single(d: u8) -> u64
    requires { d < 64 }
    ensures { result ≡ one_set d }
{
    1u64 << d
}

// All numbers below n.
pub fn below(n: u8) -> u64
    requires { n ≤ 64 }
    ensures { result ≡ below_set n }
{
    if n == 64 { u64::MAX } else { (1u64 << n) - 1 }
}

// The set x without the numbers of m.
pub fn minus(x: u64, m: u64) -> u64
    ensures { result ≡ set_minus x m }
{
    x ^ (x & m)
}

// The set with d.
pub fn with(x: u64, d: u8) -> u64
    requires { d < 64 }
    ensures { result ≡ set_with x d }
{
    x | single(d)
}

// The lowest number of the set; below 64, so that it fits a byte.
pub fn first(x: u64) -> u8
    requires { 0 < x }
    ensures { FirstIs x result }
{
    u64::trailing_zeros(x) as u8
}

// The set without its lowest number.
pub fn rest(x: u64) -> u64
    requires { 0 < x }
    ensures { RestIs x result }
{
    x & (x - 1)
}

// Bit d where a test passes, else 0.
pub fn bit_at(test: bool, d: u8) -> u32
    requires { d < 32 }
    ensures { result ≡ bit_of test * 2 ^ d }
{
    if test { 1u32 << d } else { 0 }
}

// The set x where a test passes, else none. A loop over a set hands on the bit that the set loses, left ^ rest(left): a
// bit shifted to its place would wait for first(left).
pub fn kept(test: bool, x: u64) -> u64
    ensures { result ≡ cond test x 0 }
{
    if test { x } else { 0 }
}

// `MayAsk` stands in the four below: a struct of x and the test that holds it would be made at each call, for that call
// alone.

// The numbers of a set at which a test passes, lowest first: no branch on what the test answers.
pub fn kept_where<F: Fn(u8) -> bool>(x: u64, test: F) -> u64
    requires { MayAsk (F.pre test) x }
    ensures { KeptWhere (F.post test) x result }
{
    let mut left = x;
    let mut met: u64 = 0;
    // Not by `Numbers`: it gives the numbers alone, and what is kept here is the bit that `left` loses.
    while left != 0 {
        let next = rest(left);
        met |= kept(test(first(left)), left ^ next);
        left = next;
    }
    met
}

// Of the 32 numbers from a first one on: lanes of 32 bits hold what is tested and its bit.
fn half_where<F: Fn(u8) -> bool>(from: u8, test: F) -> u32
    requires { (from ≤ 32) × ((d : ℕ) → d < 32 → F.pre test (from + d)) }
    ensures { HalfWhere (F.post test) from result }
{
    let mut met: u32 = 0;
    for d in 0..32u8 {
        met |= bit_at(test(from + d), d);
    }
    met
}

// The numbers below 64 at which a test passes, straight through, by halves: no bit waits for another.
pub fn all_where<F: Fn(u8) -> bool>(test: F) -> u64
    requires { MayAsk (F.pre test) (below_set 64) }
    ensures { KeptWhere (F.post test) (below_set 64) result }
{
    u64::from(half_where(0, &test)) + 0x1_0000_0000 * u64::from(half_where(32, &test))
}

// The same, one after the other and the last first, so that no answer is shifted to its place: for a test that is a
// loop itself. By halves a run of "contains" takes 7 % more instructions, and up to a fifth longer.
pub fn all_in_turn<F: Fn(u8) -> bool>(test: F) -> u64
    requires { MayAsk (F.pre test) (below_set 64) }
    ensures { KeptWhere (F.post test) (below_set 64) result }
{
    let mut met: u64 = 0;
    for d in (0..64u8).rev() {
        met = met + met + u64::from(test(d));
    }
    met
}

// The numbers of a set at which a test passes, by the shorter way.
pub fn met_where<F: Fn(u8) -> bool>(x: u64, test: F) -> u64
    requires { MayAsk (F.pre test) x }
    ensures { KeptWhere (F.post test) x result }
{
    if x == below(64) {
        all_where(test)
    } else {
        kept_where(x, test)
    }
}
