// One row of a column, in its place in the catalogue's bytes b: the column has this tag, and its payload starts there.
ghost use Rattle.catalogue.specs.InPlace.{HasRow};

#[derive(Clone, Copy)]
pub struct Cell<'a> {
    pub b: &'a [u8],
    pub tag: u8,
    pub start: usize,
    pub row: usize,
    pub ghost there: { ∥ HasRow b.now tag start row ∥₁ },
}
