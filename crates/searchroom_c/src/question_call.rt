// Checking a question against a catalogue.
ghost use Rattle.demands.specs.Calls.{QuestionGives};

#[unsafe(no_mangle)]
pub extern "C" fn searchroom_check_question(catalogue: &[u8], question: &[u8]) -> u64
    ensures { QuestionGives catalogue.now question.now result }
{
    searchroom::question_call::searchroom_check_question(catalogue, question)
}
