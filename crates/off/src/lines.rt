// The lines of an OFF text: counts, corners and rings. What each leaves is the text after it.
ghost use Rattle.std.specs.Prelude.{◌≡◌, length};
ghost use Rattle.off.specs.Words.{natural, coordinate};
ghost use Rattle.off.specs.Plain.{several, ring, cell_count, is_over};
ghost use Rattle.off.specs.Reading.{found_of, CoordinatesTaken, RingRoom, RingTaken};

use crate::words::{coordinate, natural, skip_blanks};

// A ring that was read: how many corners it has, and whether all are below their count.
#[derive(Clone, Copy)]
pub struct RingRead {
    pub length: usize,
    pub below: bool,
}

// A count of corners or panels.
#[tactic(auto, unfolding(crate::specs::Plain::cell_count))]
pub(crate) fn cell_count(s: &[u8]) -> Option<(u32, &[u8])>
    ensures { found_of result ≡ cell_count s.now }
{
    let (n, rest) = natural(s)?;
    if 96 < n {
        return None;
    }
    Some((n, rest))
}

// As many coordinates as the list has.
pub(crate) fn read_coordinates<'a>(s: &'a [u8], list: &mut [i32]) -> Option<&'a [u8]>
    ensures { CoordinatesTaken (several coordinate (length list.old) s.now) result list.new }
{
    let mut rest = s;
    for place in list.iter_mut() {
        let (z, after) = coordinate(rest)?;
        *place = z;
        rest = after;
    }
    Some(rest)
}

// n corners of a ring, which go into the bytes as far as these have room and all are below the limit.
fn read_corners<'a>(
    s: &'a [u8],
    n: usize,
    limit: usize,
    bytes: &mut [u8],
) -> Option<(RingRead, &'a [u8])>
    requires { RingRoom limit bytes.old }
    ensures { RingTaken limit (several natural n s.now) result bytes.new }
{
    let mut rest = s;
    let mut below = true;
    for l in 0..n {
        let (corner, after) = natural(rest)?;
        let c = corner as usize;
        below = below && c < limit;
        if below && l < bytes.len() {
            bytes[l] = c as u8;
        }
        rest = after;
    }
    Some((RingRead { length: n, below }, rest))
}

// A ring's line.
#[tactic(auto, unfolding(crate::specs::Plain::ring))]
pub(crate) fn read_ring<'a>(
    s: &'a [u8],
    limit: usize,
    bytes: &mut [u8],
) -> Option<(RingRead, &'a [u8])>
    requires { RingRoom limit bytes.old }
    ensures { RingTaken limit (ring s.now) result bytes.new }
{
    let (n, rest) = natural(s)?;
    read_corners(rest, n as usize, limit, bytes)
}

// Whether nothing but blanks is left.
#[tactic(auto, unfolding(crate::specs::Plain::is_over))]
pub(crate) fn is_over(s: &[u8]) -> bool
    ensures { result ≡ is_over s.now }
{
    skip_blanks(s).is_empty()
}
