// Running a question in a given order, for a reader.
ghost use Rattle.demands.specs.Run.{lent};
ghost use Rattle.demands.specs.Calls.{RunGives};

use answers::word::{numbered, pack};

pub fn searchroom_run(
    catalogue: &[u8],
    question: &[u8],
    order: &[u8],
    reader: u64,
    listed: &mut [u8],
    looks: &mut [u8],
    tally: &mut [u8],
) -> u64
    ensures { RunGives (lent catalogue.now question.now order.now reader
        listed.old looks.old tally.old)
        result listed.new looks.new tally.new }
{
    pack(numbered(run::run_question(catalogue, question, order, reader, listed, looks, tally)))
}
