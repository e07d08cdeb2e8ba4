// The due rows of a block of 64 rows of a column: what the leaves of a run are given.
ghost use Rattle.std.specs.Prelude.{◌≡◌};
ghost use Rattle.fields.specs.Numbers.{Bytes};
ghost use Rattle.heads.specs.Block.{HasDueRows, IsWithin};

// Bit d of `due` is row base + d of the column of this tag whose payload starts there in b, the catalogue's bytes.
// Every due row is a row of that column. `bytes` says that b holds bytes, which is not known of a slice in a struct.
// The tag that a leaf wants is one equation in its contract: a type for each tag, over this one, would be made at the
// seven calls of the leaves in `scan::met` and opened in each leaf.
#[derive(Clone, Copy)]
pub struct DueRows<'a> {
    pub b: &'a [u8],
    pub tag: u8,
    pub start: usize,
    pub base: usize,
    pub due: u64,
    pub ghost bytes: { Bytes b.now },
    pub ghost there: { ∥ HasDueRows b.now tag start base due ∥₁ },
}

impl<'a> DueRows<'a> {
    // Those of the rows that a filter left.
    pub fn left(self, due: u64) -> Self
        requires { IsWithin due self.due }
        ensures { let r = result in let s = self.entry in
            (r.b.now ≡ s.b.now) × (r.tag ≡ s.tag) × (r.start ≡ s.start) × (r.base ≡ s.base) × (r.due ≡ due) }
    {
        DueRows {
            b: self.b,
            tag: self.tag,
            start: self.start,
            base: self.base,
            due,
        }
    }
}
