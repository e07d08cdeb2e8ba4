// A block of 64 rows worked through, turn after turn.
ghost use Rattle.rows.specs.Ready.{slices};
ghost use Rattle.rows.specs.Worked.{Filled, HasNoMarks, BlockReady, BlockWorked};

use plan::table::Plan;
use predicate::fold::Fold;
use query::format::Predicate;
use sets::numbers::Numbers;

// Row d of the block is row base + d; the rows that take part; the predicates that are live at first.
#[derive(Clone, Copy)]
pub struct Block {
    pub base: usize,
    pub rows: u64,
    pub start: u64,
}

// Makes the predicates of start live at the rows.
fn fill(live: &mut [u64; Predicate::LIMIT], start: u64, rows: u64)
    ensures { Filled start rows live.old live.new }
{
    for c in Numbers(start) {
        live[usize::from(c)] = rows;
    }
}

// The rows that are selected. Each predicate's due rows are marked, and its outcomes worked out at these alone.
pub fn work_block(
    fold: Fold,
    catalogue: &[u8],
    question: &[u8],
    turns: &[u8],
    plan: &Plan,
    ancestors: &[u8],
    block: Block,
    marks: &mut [u8],
) -> u64
    requires { BlockReady (slices catalogue.now question.now turns.now plan.now ancestors.now) block × HasNoMarks block marks.old }
    ensures { BlockWorked
        (slices catalogue.now question.now turns.now plan.now ancestors.now)
        block result marks.old marks.new }
{
    let Block { base, rows, start } = block;
    let mut live = [0; Predicate::LIMIT];
    fill(&mut live, start, rows);
    let mut selected = 0;
    for turn in turns {
        let c = usize::from(*turn);
        let due = live[c];
        if due == 0 {
            continue;
        }
        let met = access::met_of(fold, catalogue, question, plan[c], base, due);
        marks::mark(marks, c, base, due, met);
        live[c] = 0;
        let passed = blocks::propagation::propagate_rows(ancestors, c, &mut live, due, met);
        selected |= passed & met;
    }
    selected
}
