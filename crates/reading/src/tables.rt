// The tables that a reading fills.
use ancestors::Ancestors;
use query::format::Predicate;

// Of the predicates read so far: offsets[c] is where the field of predicate c begins, line c of ancestors tells the
// groups around it. How many there are is no field: while a group is read it goes on with the place (`Progress`).
#[derive(Drop)]
pub struct Tables {
    pub offsets: [usize; Predicate::LIMIT],
    pub ancestors: [u8; Ancestors::TABLE_SIZE],
}

impl Tables {
    // No predicate is read.
    pub const EMPTY: Tables = Tables {
        offsets: [0; Predicate::LIMIT],
        ancestors: [0; Ancestors::TABLE_SIZE],
    };
}
