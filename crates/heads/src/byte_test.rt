// Tests of a byte that stand for the fold: each is one mask and one comparison.
ghost use Rattle.std.specs.Prelude.{◌≡◌, cond};
ghost use Rattle.heads.specs.ByteTest.{test_passes, any_byte, is_loose, tight_bits, loose_bits, tight_test, loose_test};

// A byte passes where, with the mask's bits set, it is the value.
#[derive(Clone, Copy)]
pub struct ByteTest {
    pub mask: u8,
    pub value: u8,
}

// As a flag of 0 and 1, so that tests are joined with no branch.
pub fn passes(test: ByteTest, x: u8) -> u8
    ensures { result ≡ cond (test_passes test x) 1 0 }
{
    u8::from(x | test.mask == test.value)
}

// Whether c is a loose letter, one of six that differ from their accented forms in so many bits that a mask for all
// of these passes seven letters or more.
pub fn is_loose(c: u8) -> bool
    ensures { result ≡ is_loose c }
{
    matches!(c, b'a' | b'e' | b'i' | b'n' | b'o' | b'u')
}

// The bits that a test of c leaves open: bit 5 where c has it, which tells the cases of a letter apart; more for the
// two letters with accented forms that are not loose.
fn tight_bits(c: u8) -> u8
    ensures { result ≡ tight_bits c }
{
    match c {
        b'c' => 0xa4,
        b'y' => 0xa6,
        _ => c & 32,
    }
}

// The same, and of a loose letter what its accented forms need.
fn loose_bits(c: u8) -> u8
    ensures { result ≡ loose_bits c }
{
    match c {
        b'a' => 0xa7,
        b'e' => 0xaf,
        b'i' => 0xa7,
        b'n' => 0xbf,
        b'o' => 0xbf,
        b'u' => 0xaf,
        _ => tight_bits(c),
    }
}

// Of a loose letter its two cases, without its accented forms; of any other byte all that fold to it, and few others.
pub fn tight_test(c: u8) -> ByteTest
    ensures { result ≡ tight_test c }
{
    let mask = tight_bits(c);
    ByteTest {
        mask,
        value: c | mask,
    }
}

// Every byte that folds to c, and others.
pub fn loose_test(c: u8) -> ByteTest
    ensures { result ≡ loose_test c }
{
    let mask = loose_bits(c);
    ByteTest {
        mask,
        value: c | mask,
    }
}

// Every byte.
pub fn any_byte() -> ByteTest
    ensures { result ≡ any_byte }
{
    ByteTest {
        mask: 255,
        value: 255,
    }
}
