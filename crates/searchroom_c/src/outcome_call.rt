// Working out one condition at one entry.
ghost use Rattle.demands.specs.Calls.{OutcomeGives};

#[unsafe(no_mangle)]
pub extern "C" fn searchroom_outcome(
    catalogue: &[u8],
    question: &[u8],
    entry: u64,
    condition: u64,
) -> u64
    ensures { OutcomeGives catalogue.now question.now entry condition result }
{
    searchroom::outcome_call::searchroom_outcome(catalogue, question, entry, condition)
}
