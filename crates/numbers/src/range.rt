// What a range asks of a number: to be its lowest, or one of so many that follow it.
ghost use Rattle.std.specs.Prelude.{◌+◌, ◌^◌, ◌<◌};

#[derive(Clone, Copy)]
pub struct Range {
    pub low: u32,
    pub width: u32,
    pub ghost fits: { low + width < 2 ^ 32 },
}
