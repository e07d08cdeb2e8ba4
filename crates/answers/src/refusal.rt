// Every refusal of a call: the catalogue's and the question's own, then document 01's 15 to 18, order 1's 20, order 4's
// 21 and 22, order 7's 24.
ghost use Rattle.std.specs.Prelude.{◌≡◌};
ghost use Rattle.answers.specs.declared.refusal.Refusal.TheVariants.{Catalogue, Question};
ghost use Rattle.answers.specs.Refusal.{refusal_number};

#[derive(Clone, Copy, PartialEq, Eq, Debug)]
pub enum Refusal {
    Catalogue(catalogue::refusal::Refusal),
    Question(query::refusal::Refusal),
    NotOrder,
    TableTooShort,
    TallyRefused,
    NoSuchRowOrPredicate,
    OutputTooShort,
    TextMisspelled,
    TypedOutputTooShort,
    NoSuchReader,
}

impl Refusal {
    // The number that document 01 gives it, or order 1, 4, 6 or 7.
    pub fn number(self) -> u8
        ensures { result ≡ refusal_number self }
    {
        match self {
            Refusal::Catalogue(own) => own.number(),
            Refusal::Question(own) => own.number(),
            Refusal::NotOrder => 15,
            Refusal::TableTooShort => 16,
            Refusal::TallyRefused => 17,
            Refusal::NoSuchRowOrPredicate => 18,
            Refusal::OutputTooShort => 20,
            Refusal::TextMisspelled => 21,
            Refusal::TypedOutputTooShort => 22,
            Refusal::NoSuchReader => 24,
        }
    }
}

impl From<catalogue::refusal::Refusal> for Refusal {
    ghost from_gives = { λ refusal r. r ≡ Catalogue refusal };

    fn from(refusal: catalogue::refusal::Refusal) -> Refusal {
        Refusal::Catalogue(refusal)
    }
}

impl From<query::refusal::Refusal> for Refusal {
    ghost from_gives = { λ refusal r. r ≡ Question refusal };

    fn from(refusal: query::refusal::Refusal) -> Refusal {
        Refusal::Question(refusal)
    }
}
