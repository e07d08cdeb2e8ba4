// The copy of the register: one field for each look of a run.
ghost use Rattle.demands.specs.Run.{request};
ghost use Rattle.demands.specs.Log.{LogGives};

use answers::word::{numbered, pack};

pub fn searchroom_copy(catalogue: &[u8], question: &[u8], order: &[u8], output: &mut [u8]) -> u64
    ensures { LogGives (request catalogue.now question.now order.now)
        output.old result output.new }
{
    pack(numbered(probe_log::log_question(catalogue, question, order, output)))
}
