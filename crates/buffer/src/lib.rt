// Putting bytes into a lent buffer.
#![tactic(auto)]

ghost use Rattle.std.specs.Prelude.{[], ◌∷◌};
ghost use Rattle.maths.specs.Buffers.{Fits, Put};

pub mod decimal;

// b at a place, and the place after it.
pub fn put(out: &mut [u8], at: usize, b: u8) -> usize
    requires { Fits out.old at (b ∷ []) }
    ensures { Put out.old at (b ∷ []) result out.new }
{
    out[at] = b;
    at + 1
}

// a and b at a place, and the place after them.
pub fn put_two(out: &mut [u8], at: usize, a: u8, b: u8) -> usize
    requires { Fits out.old at (a ∷ b ∷ []) }
    ensures { Put out.old at (a ∷ b ∷ []) result out.new }
{
    out[at] = a;
    out[at + 1] = b;
    at + 2
}

// s at a place, and the place after it.
pub fn put_all(out: &mut [u8], at: usize, s: &[u8]) -> usize
    requires { Fits out.old at s.now }
    ensures { Put out.old at s.now result out.new }
{
    let next = at + s.len();
    out[at..next].copy_from_slice(s);
    next
}
