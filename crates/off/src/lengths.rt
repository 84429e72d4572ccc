// How long the lines of an OFF text are.
ghost use Rattle.std.specs.Prelude.{◌≡◌, ◌<◌, ◌≤◌, nat_abs, length};
ghost use Rattle.maths.specs.Sums.{join};
ghost use Rattle.off.specs.Words.{farthest};
ghost use Rattle.off.specs.Exporting.{number, signed, corner_line, ring_line, head_lines};
ghost use Rattle.off.specs.RingBytes.{Corners};
ghost use Rattle.off.specs.Writing.{Near, NearCorner};

// How many digits n has.
pub(crate) fn number_length(n: u32) -> usize
    requires { n < 10_000_000 }
    ensures { result ≡ length (number n) }
{
    1 + (10 <= n) as usize
        + (100 <= n) as usize
        + (1_000 <= n) as usize
        + (10_000 <= n) as usize
        + (100_000 <= n) as usize
        + (1_000_000 <= n) as usize
}

// How long z is with its sign.
fn signed_length(z: i32) -> usize
    requires { nat_abs z ≤ farthest }
    ensures { result ≡ length (signed z) }
{
    number_length(z.unsigned_abs()) + (z < 0) as usize
}

// How long the line of a corner is: three numbers, and a byte after each.
fn corner_length(corner: &[i32; 3]) -> usize
    requires { NearCorner corner.now }
    ensures { result ≡ length (corner_line corner.now 0) }
{
    corner.iter().map(|&z| signed_length(z) + 1).sum()
}

// How long the lines of n corners are.
pub(crate) fn corners_length(list: &[i32], n: usize) -> usize
    requires { Near list.now n }
    ensures { result ≡ length (join n (corner_line list.now)) }
{
    let (corners, _) = list.as_chunks::<3>();
    corners[..n].iter().map(corner_length).sum()
}

// How long the line of a ring is.
pub(crate) fn ring_length(ring: &[u8]) -> usize
    requires { Corners ring.now }
    ensures { result ≡ length (ring_line ring.now) }
{
    let corners: usize = ring.iter().map(|&c| 1 + number_length(c as u32)).sum();
    number_length(ring.len() as u32) + corners + 1
}

// How long the first two lines are.
pub(crate) fn head_length(corners: u8, panels: u8, seams: u8) -> usize
    ensures { result ≡ length (head_lines corners panels seams) }
{
    number_length(corners as u32) + number_length(panels as u32) + number_length(seams as u32) + 7
}
