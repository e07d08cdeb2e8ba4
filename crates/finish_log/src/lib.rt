// How a copy ends: its looks are counted, the output measured, and only then the fields written.
#![tactic(auto)]

ghost use Rattle.answers.specs.Answer.{answer_of};
ghost use Rattle.finish_log.specs.Finish.{HasMarks, LogFinished};

use answers::answer::Answer;
use answers::refusal::Refusal;
use bitmaps::copy::Lines;
use copy_log::field::ProbeField;
use gather::probes::Probes;
use marks::MarkTable;
use plan::table::Plan;

// Ends a copy whose own table and plan are these: refusal 20, or the length and the fields. The table is a slice:
// MarksOf says its size, and the theorems on its two halves take it from there.
pub fn finish_log(
    catalogue: &[u8],
    plan: &Plan,
    order: &[u8],
    marks: &[u8],
    n: usize,
    rows: usize,
    output: &mut [u8],
) -> Result<Answer, Refusal>
    requires { HasMarks catalogue.now plan.now order.now marks.now n rows }
    ensures { LogFinished catalogue.now plan.now order.now marks.now n rows
        output.old (answer_of result) output.new }
{
    let lines = Lines {
        table: marks,
        n,
        size: bitmaps::size::bytes_for(rows),
    };
    let looked = counts::lines::count_whole_lines(lines);
    let size = ProbeField::SIZE as u64 * looked;
    if (output.len() as u64) < size {
        return Err(Refusal::OutputTooShort);
    }
    let probes = Probes {
        turns: order,
        probed: &marks[..MarkTable::PROBES],
        met: &marks[MarkTable::PROBES..],
    };
    log_rows::all::put_rows(catalogue, plan, probes, rows, output);
    Ok(Answer {
        first: 0,
        second: 0,
        third: size,
    })
}
