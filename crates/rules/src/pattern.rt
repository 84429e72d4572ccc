// A pattern as it is lent: its counts, and its three matrices behind references.
ghost use Rattle.std.specs.Prelude.{◌≡◌};
ghost use Rattle.rules.specs.Lending.{lent_by, seen_by};

use crate::counts::Counts;

// To be changed.
#[derive(Drop)]
pub struct Pattern<'a> {
    pub counts: Counts,
    pub m1: &'a mut [i8],
    pub m2: &'a mut [i8],
    pub m3: &'a mut [i8],
}

// To be read.
#[derive(Clone, Copy)]
pub struct View<'a> {
    pub counts: Counts,
    pub m1: &'a [i8],
    pub m2: &'a [i8],
    pub m3: &'a [i8],
}

impl Pattern<'_> {
    // The same pattern, to be read for a while.
    pub fn view(&self) -> View<'_>
        ensures { seen_by result ≡ lent_by self.now }
    {
        View {
            counts: self.counts,
            m1: self.m1,
            m2: self.m2,
            m3: self.m3,
        }
    }
}
