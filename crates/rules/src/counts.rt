// The record of the four counts.
ghost use Rattle.std.specs.Prelude.{◌≡◌, ◌<◌};
ghost use Rattle.rules.specs.Counts.{count_of, grown_at, shrunk_at};

// How many corners, seams, panels and blocks.
#[derive(Clone, Copy, Debug, PartialEq, Eq)]
pub struct Counts {
    pub n: [u8; 4],
}

impl Counts {
    // One cell more of dimension k.
    pub fn grown(self, k: usize) -> Counts
        requires { (k < 4) × (count_of self k < 96) }
        ensures { result ≡ grown_at self k }
    {
        let mut next = self;
        next.n[k] = self.n[k] + 1;
        next
    }

    // One cell fewer of dimension k: higher numbers drop by one.
    pub fn shrunk(self, k: usize) -> Counts
        requires { (k < 4) × (0 < count_of self k) }
        ensures { result ≡ shrunk_at self k }
    {
        let mut next = self;
        next.n[k] = self.n[k] - 1;
        next
    }
}
