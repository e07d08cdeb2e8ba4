// Checking a catalogue.
ghost use Rattle.demands.specs.Calls.{CatalogueGives};

#[unsafe(no_mangle)]
pub extern "C" fn searchroom_check_catalogue(catalogue: &[u8]) -> u64
    ensures { CatalogueGives catalogue.now result }
{
    searchroom::catalogue_call::searchroom_check_catalogue(catalogue)
}
