// Every byte of an OFF text goes to its place.
ghost use Rattle.std.specs.Prelude.{length};
ghost use Rattle.maths.specs.Sums.{join};
ghost use Rattle.maths.specs.Buffers.{Put};
ghost use Rattle.off.specs.Exporting.{number, signed, corner_line, ring_line, head_lines};
ghost use Rattle.off.specs.Walking.{panel_ring, ring_lines};
ghost use Rattle.off.specs.Writing.{NumberFits, SignedFits, CornerFits, CornersFit, spaced, SpacedFit, RingFits, PanelFits, RingsFit, HeadFits, text_by, TextFits};

use crate::ends::Ends;
use crate::walks::go_round;
use buffer::decimal::{put_decimal, put_short};
use buffer::{put, put_all};
use grid::tests::column_count;
use maths::SIDE;
use rules::counts::Counts;

// n in decimal at a place, and the place after it.
fn put_number(out: &mut [u8], at: usize, n: u32) -> usize
    requires { NumberFits n out.old at }
    ensures { Put out.old at (number n) result out.new }
{
    put_short(out, at, n)
}

// z in decimal, with a sign where it is below 0.
fn put_signed(out: &mut [u8], at: usize, z: i32) -> usize
    requires { SignedFits z out.old at }
    ensures { Put out.old at (signed z) result out.new }
{
    put_decimal(out, at, z)
}

// The line of a corner at a place, and the place after it.
fn put_corner(corner: &[i32; 3], out: &mut [u8], at: usize) -> usize
    requires { CornerFits corner.now out.old at }
    ensures { Put out.old at (corner_line corner.now 0) result out.new }
{
    let &[x, y, z] = corner;
    let after_x = put_signed(out, at, x);
    let blank = put(out, after_x, b' ');
    let after_y = put_signed(out, blank, y);
    let blank = put(out, after_y, b' ');
    let after_z = put_signed(out, blank, z);
    put(out, after_z, b'\n')
}

// The lines of n corners at a place, and the place after them.
fn put_corners(list: &[i32], n: usize, out: &mut [u8], at: usize) -> usize
    requires { CornersFit list.now n out.old at }
    ensures { Put out.old at (join n (corner_line list.now)) result out.new }
{
    let (corners, _) = list.as_chunks::<3>();
    let mut next = at;
    for corner in &corners[..n] {
        next = put_corner(corner, out, next);
    }
    next
}

// The corners of a ring at a place, a blank before each, and the place after them.
fn put_spaced(ring: &[u8], out: &mut [u8], at: usize) -> usize
    requires { SpacedFit ring.now out.old at }
    ensures { Put out.old at (spaced ring.now (length ring.now)) result out.new }
{
    let mut next = at;
    for &c in ring {
        let blank = put(out, next, b' ');
        next = put_number(out, blank, c as u32);
    }
    next
}

// The line of a ring at a place, and the place after it.
fn put_ring(ring: &[u8], out: &mut [u8], at: usize) -> usize
    requires { RingFits ring.now out.old at }
    ensures { Put out.old at (ring_line ring.now) result out.new }
{
    let length = put_number(out, at, ring.len() as u32);
    let corners = put_spaced(ring, out, length);
    put(out, corners, b'\n')
}

// The line of panel j at a place, and the place after it.
fn put_panel(m2: &[i8], j: usize, ends: &[Ends], out: &mut [u8], at: usize) -> usize
    requires { PanelFits m2.now j ends.now out.old at }
    ensures { Put out.old at (ring_line (panel_ring m2.now ends.now j)) result out.new }
{
    let mut bytes = [0u8; SIDE];
    let ring = &mut bytes[..column_count(m2, j)];
    go_round(m2, j, ends, ring);
    put_ring(ring, out, at)
}

// The line of each panel at a place, and the place after them.
fn put_rings(m2: &[i8], panels: usize, ends: &[Ends], out: &mut [u8], at: usize) -> usize
    requires { RingsFit m2.now panels ends.now out.old at }
    ensures { Put out.old at (ring_lines m2.now ends.now panels) result out.new }
{
    let mut next = at;
    for j in 0..panels {
        next = put_panel(m2, j, ends, out, next);
    }
    next
}

// The first two lines at the front of the buffer, and the place after them.
fn put_head(corners: u8, panels: u8, seams: u8, out: &mut [u8]) -> usize
    requires { HeadFits corners panels seams out.old }
    ensures { Put out.old 0 (head_lines corners panels seams) result out.new }
{
    let first = put_all(out, 0, b"OFF\n");
    let a = put_number(out, first, corners as u32);
    let after_a = put(out, a, b' ');
    let b = put_number(out, after_a, panels as u32);
    let after_b = put(out, b, b' ');
    let d = put_number(out, after_b, seams as u32);
    put(out, d, b'\n')
}

// The whole text at the front of the buffer, and the place after it.
pub(crate) fn put_text(c: Counts, m2: &[i8], list: &[i32], ends: &[Ends], out: &mut [u8]) -> usize
    requires { TextFits c m2.now list.now ends.now out.old }
    ensures { Put out.old 0 (text_by c m2.now list.now ends.now) result out.new }
{
    let n = c.n;
    let corners = put_head(n[0], n[2], n[1], out);
    let panels = put_corners(list, n[0] as usize, out, corners);
    put_rings(m2, n[2] as usize, ends, out, panels)
}
