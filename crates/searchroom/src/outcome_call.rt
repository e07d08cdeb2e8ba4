// Working out one condition at one entry.
ghost use Rattle.demands.specs.Calls.{OutcomeGives};

use answers::word::{numbered, pack};

pub fn searchroom_outcome(catalogue: &[u8], question: &[u8], entry: u64, condition: u64) -> u64
    ensures { OutcomeGives catalogue.now question.now entry condition result }
{
    pack(numbered(outcome::outcome_at(catalogue, question, entry, condition)))
}
