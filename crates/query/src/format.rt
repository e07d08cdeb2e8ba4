// The numbers of the query's format; the contracts of the crates above tie them to those of specs/Format.antt.

#[derive(Drop)]
pub struct Predicate;

impl Predicate {
    pub const TAG: u8 = 80;

    pub const LIMIT: usize = 64;
}

#[derive(Drop)]
pub struct Group;

impl Group {
    // A group's kind stays its byte: `close_group` writes it into the table of ancestors as it was read, and `Closed`
    // tells the groups by these bytes.
    pub const CONJUNCTION_TAG: u8 = 65;

    pub const DISJUNCTION_TAG: u8 = 79;

    pub const DEPTH_LIMIT: usize = 8;
}
