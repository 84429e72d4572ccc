// The boundary of the taken part: that of the dividing cell.
ghost use Rattle.std.specs.Prelude.{◌≡◌, ◌≤◌, pred};
ghost use Rattle.rules.specs.Good.{one_each};
ghost use Rattle.rules.specs.Operators.{proper, divides};
ghost use Rattle.rules.specs.Calls.{coefficients};
ghost use Rattle.operators.specs.Boundary.{BoundaryNeeds, BoundaryFound};

use grid::runs::{are_units, are_zero, times_of};
use grid::sums::add_columns;
use maths::SIDE;

// Whether the entries are within -1 to 1, and not all 0.
fn is_proper(v: &[i8; SIDE]) -> bool
    ensures { result ≡ proper (coefficients v.now) }
{
    are_units(v) && !are_zero(v)
}

// Whether there is one -1 and one +1.
fn one_each(v: &[i8; SIDE]) -> bool
    ensures { result ≡ one_each (coefficients v.now) }
{
    times_of(v, -1) == 1 && times_of(v, 1) == 1
}

// Whether a seam or a panel that divides a cell of dimension dim can have this boundary.
fn is_divider(dim: u8, v: &[i8; SIDE]) -> bool
    requires { (2 ≤ dim) × (dim ≤ 3) }
    ensures { result ≡ divides (pred dim) (coefficients v.now) }
{
    is_proper(v) && (dim != 2 || one_each(v))
}

// The boundary of what is taken of a cell of dimension dim, where a dividing cell can have it. A corner has none.
pub(crate) fn boundary_of(dim: u8, low: &[i8], taken: &[i8; SIDE]) -> Option<[i8; SIDE]>
    requires { BoundaryNeeds dim low.now taken.now }
    ensures { BoundaryFound dim low.now (coefficients taken.now) result }
{
    let mut edge = [0; SIDE];
    if dim == 1 {
        return Some(edge);
    }
    add_columns(&mut edge, low, taken);
    is_divider(dim, &edge).then_some(edge)
}
