// The two ends of every seam, as bytes.
ghost use Rattle.std.specs.Prelude.{◌≡◌, ◌<◌, length};
ghost use Rattle.maths.specs.Tests.{all};
ghost use Rattle.grid.specs.Grid.{Columns};
ghost use Rattle.off.specs.Exporting.{is_alone};
ghost use Rattle.off.specs.Walking.{ends_by, EndsTaken, same_ends};

use grid::tests::column_last;

// The corners that a seam goes from and to.
#[derive(Clone, Copy, PartialEq, Eq)]
pub struct Ends {
    pub tail: u8,
    pub head: u8,
}

impl Ends {
    // The ends of the seam that goes the other way.
    fn turned(self) -> Ends
        ensures { result ≡ record { tail = self.head; head = self.tail } }
    {
        Ends {
            tail: self.head,
            head: self.tail,
        }
    }

    // Whether two seams have the same two ends.
    fn same_ends(self, other: Ends) -> bool
        ensures { result ≡ same_ends self other }
    {
        self == other || self == other.turned()
    }
}

// The tails and heads of the first seam columns.
pub(crate) fn take_ends(m1: &[i8], ends: &mut [Ends])
    requires { Columns m1.now (length ends.old) }
    ensures { EndsTaken m1.now ends.new }
{
    for j in 0..ends.len() {
        ends[j] = Ends {
            tail: column_last(m1, j, -1) as u8,
            head: column_last(m1, j, 1) as u8,
        };
    }
}

// Whether no seam before seam j has its two ends.
fn is_alone(ends: &[Ends], j: usize) -> bool
    requires { j < length ends.now }
    ensures { result ≡ is_alone (ends_by ends.now) j }
{
    let seam = ends[j];
    ends[..j].iter().all(|other| !other.same_ends(seam))
}

// Whether no two seams have the same two ends.
pub(crate) fn all_alone(ends: &[Ends]) -> bool
    ensures { result ≡ all (length ends.now) (is_alone (ends_by ends.now)) }
{
    (0..ends.len()).all(|j| is_alone(ends, j))
}
