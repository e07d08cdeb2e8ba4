// The groups around each predicate, the innermost first: a line of the table for each predicate, with how many there
// are and of each the first predicate, the end of its predicates and its tag.
#![tactic(auto)]

ghost use Rattle.std.specs.Prelude.{◌+◌, ◌*◌, ◌≤◌, ◌<◌, ◌≡◌, length, get_or};
ghost use Rattle.ancestors.specs.Ancestors.{ancestor_size, ancestors_size, ancestor_of, ancestor_at, Closable, Closed};

use query::format::{Group, Predicate};

// The table is bytes, three for an ancestor: what `close_group` and `propagate_rows` promise (`Closed`, `HasAncestors`,
// `ancestors_of`) is told of these bytes.
#[derive(Drop)]
pub struct Ancestors;

impl Ancestors {
    // The columns of one ancestor.
    pub const FIRST: usize = 0;

    pub const END: usize = 1;

    pub const TAG: usize = 2;

    // The bytes of one ancestor.
    pub const SIZE: usize = 3;

    // A line: the number of ancestors, then each.
    pub const LINE_SIZE: usize = 1 + Ancestors::SIZE * Group::DEPTH_LIMIT;

    pub const TABLE_SIZE: usize = Ancestors::LINE_SIZE * Predicate::LIMIT;

    // Where ancestor k of the line that begins at a place stands.
    pub fn place(line: usize, k: u8) -> usize
        requires { line < ancestors_size }
        ensures { result ≡ line + 1 + ancestor_size * k }
    {
        line + 1 + Ancestors::SIZE * usize::from(k)
    }
}

// A group around a predicate: of how many predicates, from which one on, and whether a yes of one settles it.
#[derive(Clone, Copy, PartialEq, Eq, Debug)]
pub struct Ancestor {
    pub settling: bool,
    pub first: usize,
    pub count: usize,
}

impl Ancestor {
    // The ancestor at place i of the table.
    pub fn at(table: &[u8], i: usize) -> Ancestor
        requires inside { i + 2 < length table.now }
        requires ordered { get_or table.now i 0 ≤ get_or table.now (i + 1) 0 }
        ensures { ancestor_of result ≡ ancestor_at table.now i }
    {
        let first = usize::from(table[i + Ancestors::FIRST]);
        let end = usize::from(table[i + Ancestors::END]);
        let tag = table[i + Ancestors::TAG];
        Ancestor {
            settling: tag == Group::DISJUNCTION_TAG,
            first,
            count: end - first,
        }
    }
}

// Closes the group of the predicates from a up to m: one ancestor more for each of them.
pub fn close_group(ancestors: &mut [u8], a: usize, m: usize, tag: u8)
    requires { Closable a m ancestors.old }
    ensures { Closed a m m tag ancestors.old ancestors.new }
{
    // Both fit a byte: a group ends at predicate 64 (`Predicate::LIMIT`) at the latest.
    let first = a as u8;
    let end = m as u8;
    for c in a..m {
        let line = Ancestors::LINE_SIZE * c;
        let height = ancestors[line];
        let i = Ancestors::place(line, height);
        ancestors[i + Ancestors::FIRST] = first;
        ancestors[i + Ancestors::END] = end;
        ancestors[i + Ancestors::TAG] = tag;
        ancestors[line] = height + 1;
    }
}
