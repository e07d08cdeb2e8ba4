// Document 01's refusals 1 to 6, order 6's 23.
ghost use Rattle.std.specs.Prelude.{◌≡◌};
ghost use Rattle.catalogue.specs.Refusal.{refusal_number};

#[derive(Clone, Copy, PartialEq, Eq, Debug)]
pub enum Refusal {
    FieldCut,
    NotCatalogue,
    CountsOutOfRange,
    NotColumn,
    BadSlot,
    BytesLeftOver,
    BadMark,
}

impl Refusal {
    // The number that document 01 gives it, or order 6.
    pub fn number(self) -> u8
        ensures { result ≡ refusal_number self }
    {
        match self {
            Refusal::FieldCut => 1,
            Refusal::NotCatalogue => 2,
            Refusal::CountsOutOfRange => 3,
            Refusal::NotColumn => 4,
            Refusal::BadSlot => 5,
            Refusal::BytesLeftOver => 6,
            Refusal::BadMark => 23,
        }
    }
}
