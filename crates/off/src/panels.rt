// Panels one after the other: each ring is read, and sewn on if none was refused.
ghost use Rattle.std.specs.Prelude.{◌≡◌, ◌≤◌};
ghost use Rattle.off.specs.Plain.{several, ring};
ghost use Rattle.off.specs.Sewing.{sewn};
ghost use Rattle.off.specs.Lying.{drawn, PanelsRoom, PanelsTaken, NextRing, NextSewn};

use crate::lines::{RingRead, read_ring};
use crate::sewing::sew_ring;
use maths::SIDE;
use rules::counts::Counts;
use rules::refusals::Refusal;

// The ring that was read is sewn on.
fn sew_next(
    c: Counts,
    read: RingRead,
    bytes: &[u8],
    m1: &mut [i8],
    m2: &mut [i8],
    m3: &mut [i8],
) -> Result<Counts, Refusal>
    requires { NextRing c read bytes.now m1.old m2.old m3.old }
    ensures { NextSewn c read bytes.now m1.old m2.old result m1.new m2.new m3.new }
{
    if !read.below {
        return Err(Refusal::NoSuchCell);
    }
    if SIDE < read.length {
        return Err(Refusal::NotClosed);
    }
    sew_ring(c, &bytes[..read.length], m1, m2, m3)
}

// n panels: what sewing them comes to, and the text after them. After a refusal they are still read.
pub(crate) fn read_panels<'a>(
    c: Counts,
    s: &'a [u8],
    n: usize,
    m1: &mut [i8],
    m2: &mut [i8],
    m3: &mut [i8],
) -> Option<(Result<Counts, Refusal>, &'a [u8])>
    requires { PanelsRoom c n m1.old m2.old m3.old }
    ensures { PanelsTaken (several ring n s.now) (sewn (drawn c m1.old m2.old)) result m1.new m2.new m3.new }
{
    let limit = c.n[0] as usize;
    let mut bytes = [0u8; SIDE];
    let mut rest = s;
    let mut sewn = Ok(c);
    for _ in 0..n {
        let (read, after) = read_ring(rest, limit, &mut bytes)?;
        if let Ok(so_far) = sewn {
            sewn = sew_next(so_far, read, &bytes, m1, m2, m3);
        }
        rest = after;
    }
    Some((sewn, rest))
}
