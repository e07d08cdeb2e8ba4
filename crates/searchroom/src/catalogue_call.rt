// Checking a catalogue.
ghost use Rattle.demands.specs.Calls.{CatalogueGives};

use answers::word::{numbered, pack};

pub fn searchroom_check_catalogue(catalogue: &[u8]) -> u64
    ensures { CatalogueGives catalogue.now result }
{
    pack(numbered(checks::check_catalogue(catalogue)))
}
