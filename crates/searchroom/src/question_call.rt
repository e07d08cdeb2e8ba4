// Checking a question against a catalogue.
ghost use Rattle.demands.specs.Calls.{QuestionGives};

use answers::word::{numbered, pack};

pub fn searchroom_check_question(catalogue: &[u8], question: &[u8]) -> u64
    ensures { QuestionGives catalogue.now question.now result }
{
    pack(numbered(checks::check_question(catalogue, question)))
}
