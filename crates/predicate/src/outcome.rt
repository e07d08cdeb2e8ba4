// The outcome of a predicate at a row.
ghost use Rattle.std.specs.Prelude.{◌≡◌};
ghost use Rattle.predicate.specs.Meaning.{yes_if, opposite, answers_blank};

#[derive(Clone, Copy, PartialEq, Eq, Debug)]
pub enum Outcome {
    No,
    Yes,
    Blank,
}

impl Outcome {
    // A blank is its own opposite.
    pub fn opposite(self) -> Outcome
        ensures { result ≡ opposite self }
    {
        match self {
            Outcome::No => Outcome::Yes,
            Outcome::Yes => Outcome::No,
            Outcome::Blank => Outcome::Blank,
        }
    }
}

impl From<bool> for Outcome {
    ghost from_gives = { λ test r. r ≡ yes_if test };

    fn from(test: bool) -> Outcome {
        if test { Outcome::Yes } else { Outcome::No }
    }
}

// Whether a kind below the opposites answers blank, at a field that is blank or not.
pub fn answers_blank(kind: u8, blank: bool) -> bool
    ensures { result ≡ answers_blank kind blank }
{
    blank && crate::kind::asks_content(kind)
}
