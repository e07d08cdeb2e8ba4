// Whether a payload is that of an earlier predicate.
ghost use Rattle.std.specs.Prelude.{◌≡◌, ◌+◌, ◌≤◌, length, MatchOption};
ghost use Rattle.fields.specs.Header.{header_size, field_end};
ghost use Rattle.predicate.specs.Meaning.{same};
ghost use Rattle.predicate.specs.Payload.{payload_head};
ghost use Rattle.query.specs.Decode.{payload_at, is_repeated};
ghost use Rattle.records.specs.Table.{predicates_at};
ghost use Rattle.members.specs.Heads.{head_at, OtherHeads, LastWithHead};

use fields::header::Header;
use records::Predicates;

// Eight bytes at a time, then one by one: `a == b` takes up to twice as long where texts of one column and kind are
// told apart; `chunks_exact` with `zip` and `all` took a little longer too.
fn same_bytes(a: &[u8], b: &[u8]) -> bool
    ensures { result ≡ same a.now b.now }
{
    if a.len() != b.len() {
        return false;
    }
    let mut i: usize = 0;
    while 8 <= a.len() - i {
        if words::word_at(a, i) != words::word_at(b, i) {
            return false;
        }
        i += 8;
    }
    while i < a.len() {
        if a[i] != b[i] {
            return false;
        }
        i += 1;
    }
    true
}

// Column and kind as one number, the column in the low byte, as the machine reads the two bytes: one test tells most
// predicates apart.
fn head(b: &[u8], at: usize) -> usize
    requires { at + payload_head ≤ length b.now }
    ensures { result ≡ head_at b.now at }
{
    usize::from(u16::from_le_bytes([b[at], b[at + 1]]))
}

// Of the first n predicates, the last that has this head.
fn last_with_head(h: usize, earlier: Predicates, n: usize) -> Option<usize>
    requires { n ≤ earlier.n }
    ensures { MatchOption result (OtherHeads h earlier.entry.q.now earlier.entry.offsets.now 0 n)
        (LastWithHead h earlier.entry.q.now earlier.entry.offsets.now n) }
{
    for c in (0..n).rev() {
        if head(earlier.q, earlier.offsets[c] + Header::SIZE) == h {
            return Some(c);
        }
    }
    None
}

// Whether the payload is that of the predicate whose field begins at a place.
fn is_payload_at(payload: &[u8], q: &[u8], at: usize) -> bool
    requires { (at + header_size ≤ field_end q.now at) × (field_end q.now at ≤ length q.now) }
    ensures { result ≡ same payload.now (payload_at q.now (at + header_size) (field_end q.now at)) }
{
    let start = at + Header::SIZE;
    let end = fields::header::field_end(q, at);
    same_bytes(payload, &q[start..end])
}

// Whether one of the earlier predicates has this payload: only those with its head are compared, the others are passed
// in a loop of their own.
pub fn is_repeated(payload: &[u8], earlier: Predicates) -> bool
    requires { payload_head ≤ length payload.now }
    ensures { result ≡ is_repeated payload.now
        (predicates_at earlier.entry.q.now earlier.entry.offsets.now earlier.entry.n) }
{
    let h = head(payload, 0);
    let mut left = earlier.n;
    while let Some(c) = last_with_head(h, earlier, left) {
        if is_payload_at(payload, earlier.q, earlier.offsets[c]) {
            return true;
        }
        left = c;
    }
    false
}
