// A typed question read into question bytes.
ghost use Rattle.demands.specs.Calls.{TypedGives};

#[unsafe(no_mangle)]
pub extern "C" fn searchroom_typed(catalogue: &[u8], text: &[u8], output: &mut [u8]) -> u64
    ensures { TypedGives catalogue.now text.now output.old result output.new }
{
    searchroom::typed_call::searchroom_typed(catalogue, text, output)
}
