// All rows of a run, into tables of its own.
ghost use Rattle.rows.specs.Ready.{slices};
ghost use Rattle.marks.specs.Marks.{HasNoBits, HasEmptyMarks};
ghost use Rattle.rows.specs.Worked.{RowsReady, RowsWorked};

use crate::block::Block;
use bitmaps::block::Base;
use bitmaps::word::Word;
use plan::table::Plan;
use predicate::fold::Fold;

// How many rows there are, where in the catalogue the bytes of the mark start, and the predicates that are live at
// first.
#[derive(Clone, Copy)]
pub struct Extent {
    pub rows: usize,
    pub mark: usize,
    pub start: u64,
}

// Marks the rows that are selected, and of each predicate the rows at which it is probed and, in a longer table, those
// of a yes. Both tables are lent, empty at the call: an edit of `run` lends a table of ones
// (worked_in_a_table_of_ones), which a type of empty tables would exclude. Made here and handed back by value, their 16
// or 32 KB would be copied at the returns of three functions.
pub fn work_rows(
    catalogue: &[u8],
    question: &[u8],
    turns: &[u8],
    plan: &Plan,
    ancestors: &[u8],
    extent: Extent,
    selected: &mut [u8],
    marks: &mut [u8],
)
    requires rows_ready { RowsReady (slices catalogue.now question.now turns.now plan.now ancestors.now) extent }
    requires has_no_bits { HasNoBits 1 selected.old × HasEmptyMarks marks.old }
    ensures { RowsWorked
        (slices catalogue.now question.now turns.now plan.now ancestors.now)
        extent selected.new marks.new }
{
    let table = predicate::fold::fold_table();
    let fold = Fold { table: &table };
    let Extent { rows, mark, start } = extent;
    let withdrawn = present::withdrawn_line(catalogue, mark);
    for base in (0..rows).step_by(Word::ROWS) {
        let part = present::present_rows(&withdrawn, rows, Base { row: base });
        let block = Block {
            base,
            rows: part,
            start,
        };
        let found = crate::block::work_block(
            fold, catalogue, question, turns, plan, ancestors, block, marks,
        );
        bitmaps::word::put_word(selected, base / 8, found);
    }
}
