// The plan of a run: of each predicate its access, filled once, so that no block looks up a column.
ghost use Rattle.std.specs.Prelude.{◌≡◌, ◌+◌, ◌≤◌, length, take, drop};
ghost use Rattle.query.specs.Format.{predicate_limit};
ghost use Rattle.records.specs.Offsets.{HasFields};
ghost use Rattle.records.specs.Table.{record_at, HasRecord, record_in};
ghost use Rattle.plan.specs.Plan.{access_of, HasColumn, HasColumns, Planned};

use query::format::Predicate;
use records::{PredicateRecord, Predicates};

// Where a predicate's outcome comes from: its column's tag and start in the catalogue, its kind, its operand's place
// and length in the query. Tag and kind stay the formats' bytes, as in the tags and the record that they come from.
#[derive(Clone, Copy, PartialEq, Eq, Debug)]
pub struct Access {
    pub tag: u8,
    pub start: usize,
    pub kind: u8,
    pub place: usize,
    pub len: usize,
}

// The accesses of a query's predicates, in their order.
pub type Plan = [Access; Predicate::LIMIT];

// A plan before it is filled.
pub const UNFILLED: Plan = [Access {
    tag: 0,
    start: 0,
    kind: 0,
    place: 0,
    len: 0,
}; Predicate::LIMIT];

impl Access {
    // The bytes of the operand in the query.
    pub fn operand(self, q: &[u8]) -> &[u8]
        requires { self.place + self.len ≤ length q.now }
        ensures { result.now ≡ take self.len (drop self.place q.now) }
    {
        &q[self.place..self.place + self.len]
    }
}

// The columns of a catalogue: of each its tag and where its payload starts.
#[derive(Clone, Copy)]
pub struct Columns<'a> {
    pub tags: &'a [u8],
    pub starts: &'a [usize],
}

impl Columns<'_> {
    // The access of a predicate's record.
    fn access(self, r: PredicateRecord) -> Access
        requires { HasColumn self.tags.now self.starts.now r }
        ensures { result ≡ access_of self.entry.tags.now self.entry.starts.now r }
    {
        let column = usize::from(r.column);
        Access {
            tag: self.tags[column],
            start: self.starts[column],
            kind: r.kind,
            place: r.place,
            len: r.len,
        }
    }
}

// The access of predicate c alone, whose field begins at offsets[c] of the query.
pub fn plan_predicate(columns: Columns, q: &[u8], offsets: &[usize], c: usize) -> Access
    requires { HasRecord q.now offsets.now c × HasColumn columns.tags.now columns.starts.now (record_at q.now offsets.now c) }
    ensures { result ≡ access_of columns.entry.tags.now columns.entry.starts.now (record_at q.now offsets.now c) }
{
    columns.access(records::record_at(q, offsets, c))
}

// Plans the first n predicates of the table.
fn plan_records(columns: Columns, table: &[PredicateRecord], n: usize, plan: &mut Plan)
    requires { (n ≤ predicate_limit) × (n ≤ length table.now)
        × HasColumns columns.tags.now columns.starts.now (record_in table.now) n }
    ensures { Planned columns.entry.tags.now columns.entry.starts.now (record_in table.now) plan.new n }
{
    for c in 0..n {
        plan[c] = columns.access(table[c]);
    }
}

// Plans the n predicates whose fields begin at these offsets of the query, by the table of their records: it is this
// function's own, lent to the one that fills it and to the one that reads it.
pub fn fill_plan(columns: Columns, q: &[u8], offsets: &[usize], n: usize, plan: &mut Plan)
    requires { HasFields q.now offsets.now n × HasColumns columns.tags.now columns.starts.now (record_at q.now offsets.now) n }
    ensures { Planned columns.entry.tags.now columns.entry.starts.now (record_at q.now offsets.now) plan.new n }
{
    let mut table = [PredicateRecord {
        column: 0,
        kind: 0,
        place: 0,
        len: 0,
    }; Predicate::LIMIT];
    records::tabulate(Predicates { q, offsets, n }, &mut table);
    plan_records(columns, &table, n, plan);
}
