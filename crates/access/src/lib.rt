// What a planned predicate gives: its outcome at a row, and the due rows of a block at which it is met, or blank.
#![tactic(auto)]

ghost use Rattle.std.specs.Prelude.{◌≡◌};
ghost use Rattle.access.specs.Access.{HasOutcome, AccessGives, HasOutcomes, MetIs, HasOutcomesAnyQuery, BlankIs};

use catalogue::cell::Cell;
use heads::rows::DueRows;
use plan::table::Access;
use predicate::fold::Fold;
use predicate::outcome::Outcome;

// The outcome at a row of the predicate with this access.
pub fn outcome_of(fold: Fold, catalogue: &[u8], q: &[u8], x: Access, row: usize) -> Outcome
    requires { HasOutcome catalogue.now q.now x row }
    ensures { AccessGives catalogue.now q.now x row result }
{
    let cell = Cell {
        b: catalogue,
        tag: x.tag,
        start: x.start,
        row,
    };
    predicate::row::outcome_at(fold, cell, x.kind, x.operand(q))
}

// The due rows of a block at which it is taken for yes: bit d is row base + d.
pub fn met_of(fold: Fold, catalogue: &[u8], q: &[u8], x: Access, base: usize, due: u64) -> u64
    requires { HasOutcomes catalogue.now q.now x base due }
    ensures { MetIs catalogue.now q.now x base due result }
{
    let rows = DueRows {
        b: catalogue,
        tag: x.tag,
        start: x.start,
        base,
        due,
    };
    scan::met::met_at(fold, rows, x.kind, x.operand(q))
}

// Those at which it is blank: the operand is not asked for.
pub fn blank_of(catalogue: &[u8], x: Access, base: usize, due: u64) -> u64
    requires { HasOutcomesAnyQuery catalogue.now x base due }
    ensures { BlankIs catalogue.now x base due result }
{
    let rows = DueRows {
        b: catalogue,
        tag: x.tag,
        start: x.start,
        base,
        due,
    };
    scan::met::blank_at(rows, x.kind)
}
