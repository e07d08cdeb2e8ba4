// What a call that is not refused gives.
ghost use Rattle.std.specs.Prelude.{◌^◌, ◌<◌};

// Its results in the order of the call's description, each within the bits that the packed word has for it.
#[derive(Clone, Copy)]
pub struct Answer {
    pub first: u64,
    pub second: u64,
    pub third: u64,
    pub ghost fits: { (first < 2 ^ 16) × (second < 2 ^ 16) × (third < 2 ^ 24) },
}
