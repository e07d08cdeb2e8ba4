// One consultation: a run of reader 0 with the tally at zero, and its register.
#![tactic(auto)]

ghost use Rattle.std.specs.Prelude.{◌≡◌, ◌≤◌, length};
ghost use Rattle.fields.specs.Numbers.{Bytes};
ghost use Rattle.query.specs.Format.{predicate_limit};
ghost use Rattle.register.specs.Register.{refused, Printed};
ghost use Rattle.consultation.specs.Consultation.{unreadable, consultation_of, longest};

use answers::tally::Tally;
use bitmaps::copy::Line;
use query::format::Predicate;
use register::text::Run;

// The refusals of the program alone: no call of the library gives them.
#[derive(Clone, Copy)]
pub enum Refusal {
    Unreadable,
}

impl Refusal {
    // Document 01's number.
    pub fn number(self) -> u64
        ensures { result ≡ unreadable }
    {
        match self {
            Refusal::Unreadable => 19,
        }
    }
}

// The register of three files, to the front of the output; its length. What is lent is bytes: the caller's own contract
// says so of its files.
pub fn write_consultation(catalogue: &[u8], question: &[u8], order: &[u8], out: &mut [u8]) -> usize
    requires { (length order.now ≤ predicate_limit) × (longest ≤ length out.old) }
    ensures { Printed (consultation_of catalogue.now question.now order.now)
        out.old result out.new × Bytes catalogue.now × Bytes question.now }
{
    let mut listed = [0u8; Line::SIZE];
    let mut looks = [0u8; Predicate::LIMIT * Line::SIZE];
    let mut tally = [0u8; Tally::SIZE];
    let word = searchroom::run_call::searchroom_run(
        catalogue,
        question,
        order,
        0,
        &mut listed,
        &mut looks,
        &mut tally,
    );
    // The word of a run has no number of entries; a refused catalogue has none.
    let rows = layout::lay_out(catalogue).map_or(0, |layout| layout.rows);
    let run = Run {
        found: answers::word::first_in(word),
        looked: answers::word::third_in(word),
        rows,
        n: order.len(),
        listed: &listed,
        looks: &looks,
    };
    register::text::write_register(answers::word::number_in(word), run, out)
}

// The register where a file cannot be read.
pub fn write_unreadable(out: &mut [u8]) -> usize
    requires { longest ≤ length out.old }
    ensures { Printed (refused unreadable) out.old result out.new }
{
    register::text::write_refused(Refusal::Unreadable.number(), out)
}
