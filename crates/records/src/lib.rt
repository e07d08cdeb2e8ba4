// The table of records: one for each predicate, in their order.
#![tactic(auto)]

ghost use Rattle.std.specs.Prelude.{◌≡◌, ◌++◌, ◌+◌, ◌≤◌, length, drop};
ghost use Rattle.predicate.specs.Payload.{payload_head};
ghost use Rattle.records.specs.Offsets.{HasFields};
ghost use Rattle.records.specs.Table.{record_of, record_at, HasRecord, records_of};

use fields::header::Header;
use payload::Payload;

// Document 01's record of a condition: the operand is the len bytes of the query from place on.
#[derive(Clone, Copy, PartialEq, Eq, Debug)]
pub struct PredicateRecord {
    pub column: u8,
    pub kind: u8,
    pub place: usize,
    pub len: usize,
}

// The predicates read so far, n of them: offsets[c] is where the field of predicate c begins in the query.
#[derive(Clone, Copy)]
pub struct Predicates<'a> {
    pub q: &'a [u8],
    pub offsets: &'a [usize],
    pub n: usize,
    ghost has_fields: { HasFields q.now offsets.now n },
}

// The record of the payload from start up to end.
fn record_of(q: &[u8], start: usize, end: usize) -> PredicateRecord
    requires { (start + payload_head ≤ end) × (end ≤ length q.now) }
    ensures { result ≡ record_of q.now start end }
{
    let place = start + Payload::HEAD;
    PredicateRecord {
        column: q[start],
        kind: q[start + 1],
        place,
        len: end - place,
    }
}

// The record of predicate c: offsets[c] is where its field begins, the record's place where its operand begins.
pub fn record_at(q: &[u8], offsets: &[usize], c: usize) -> PredicateRecord
    requires { HasRecord q.now offsets.now c }
    ensures { result ≡ record_at q.now offsets.now c }
{
    let at = offsets[c];
    record_of(q, at + Header::SIZE, fields::header::field_end(q, at))
}

// Stores the records of the predicates; what stands after them stays.
pub fn tabulate(predicates: Predicates, table: &mut [PredicateRecord])
    requires { predicates.n ≤ length table.old }
    ensures { table.new ≡ records_of predicates.entry.q.now predicates.entry.offsets.now predicates.entry.n
        ++ drop predicates.entry.n table.old }
{
    let Predicates { q, offsets, n } = predicates;
    for c in 0..n {
        table[c] = record_at(q, offsets, c);
    }
}
