// Rings as bytes.
ghost use Rattle.std.specs.Prelude.{◌≡◌};
ghost use Rattle.off.specs.Rings.{distinct, is_ring};
ghost use Rattle.off.specs.RingBytes.{Corners};

use maths::SIDE;

// Whether the corners are distinct.
fn are_distinct(ring: &[u8]) -> bool
    requires { Corners ring.now }
    ensures { result ≡ distinct ring.now }
{
    let mut seen = [false; SIDE];
    for corner in ring {
        let c = *corner as usize;
        if seen[c] {
            return false;
        }
        seen[c] = true;
    }
    true
}

// Whether corners are a ring.
#[tactic(auto, unfolding(crate::specs::Rings::is_ring))]
pub(crate) fn is_ring(ring: &[u8]) -> bool
    requires { Corners ring.now }
    ensures { result ≡ is_ring ring.now }
{
    3 <= ring.len() && are_distinct(ring)
}
