// The numbers of a set, one after the other.
ghost use Rattle.std.specs.Iterator.{at_most};
ghost use Rattle.sets.specs.Taken.{Taken};

// The numbers that are still to come, lowest first.
#[derive(Drop)]
pub struct Numbers(pub u64);

impl Iterator for Numbers {
    type Item = u8;

    ghost next_gives = { λ s d t. Taken s.0 d t.0 };

    ghost remaining = { λ s. at_most s.0 };

    fn next(&mut self) -> Option<u8> {
        if self.0 == 0 {
            return None;
        }
        let d = crate::first(self.0);
        self.0 = crate::rest(self.0);
        Some(d)
    }
}
