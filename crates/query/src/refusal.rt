// Document 01's refusals 7 to 14.
ghost use Rattle.std.specs.Prelude.{◌≡◌};
ghost use Rattle.query.specs.Refusal.{refusal_number};

#[derive(Clone, Copy, PartialEq, Eq, Debug)]
pub enum Refusal {
    MemberCut,
    UnknownTag,
    EmptyGroup,
    TooDeep,
    InvalidPayload,
    TooManyPredicates,
    RepeatedPayload,
    BytesAfterQuery,
}

impl Refusal {
    // The number that document 01 gives it.
    pub fn number(self) -> u8
        ensures { result ≡ refusal_number self }
    {
        match self {
            Refusal::MemberCut => 7,
            Refusal::UnknownTag => 8,
            Refusal::EmptyGroup => 9,
            Refusal::TooDeep => 10,
            Refusal::InvalidPayload => 11,
            Refusal::TooManyPredicates => 12,
            Refusal::RepeatedPayload => 13,
            Refusal::BytesAfterQuery => 14,
        }
    }
}
