// A typed question read into question bytes.
ghost use Rattle.demands.specs.Calls.{TypedGives};

use answers::word::{numbered, pack};

pub fn searchroom_typed(catalogue: &[u8], text: &[u8], output: &mut [u8]) -> u64
    ensures { TypedGives catalogue.now text.now output.old result output.new }
{
    pack(numbered(typed::type_question(catalogue, text, output)))
}
