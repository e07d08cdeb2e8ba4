// The kinds of a predicate. They stay bytes: `text_test`, `outcome_at` and `plain_kind` answer for every byte of the
// format.
ghost use Rattle.std.specs.Prelude.{◌≡◌};
ghost use Rattle.predicate.specs.Kinds.{plain_kind, asks_content};

#[derive(Drop)]
pub struct Kind;

impl Kind {
    pub const RANGE: u8 = 0;

    pub const NUMBER_BLANK: u8 = 1;

    pub const EQUALS: u8 = 2;

    pub const BEGINS: u8 = 3;

    pub const CONTAINS: u8 = 4;

    pub const TEXT_BLANK: u8 = 5;
    // A kind from here on is the opposite of the kind that is so much less.
    pub const OPPOSITE_FROM: u8 = 128;
}

// The kind that is answered, or whose opposite is.
pub fn plain_kind(kind: u8) -> u8
    ensures { result ≡ plain_kind kind }
{
    if kind < Kind::OPPOSITE_FROM {
        kind
    } else {
        kind - Kind::OPPOSITE_FROM
    }
}

// Whether a kind below the opposites asks what a field holds, and not whether it is blank.
pub fn asks_content(kind: u8) -> bool
    ensures { result ≡ asks_content kind }
{
    matches!(kind, Kind::RANGE | Kind::EQUALS..=Kind::CONTAINS)
}
