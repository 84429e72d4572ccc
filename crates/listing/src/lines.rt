// Each line of the printed result, put at a place of a buffer; the answer is the place after it.
ghost use Rattle.std.specs.Prelude.{◌≡◌, [], ◌∷◌, ◌++◌, ◌+◌, ◌≤◌, length};
ghost use Rattle.maths.specs.Tables.{column};
ghost use Rattle.maths.specs.Buffers.{Put};
ghost use Rattle.rules.specs.Form.{is_fault};
ghost use Rattle.rules.specs.Mesh.{each_face, one_face};
ghost use Rattle.rules.specs.Printed.{decimal, printed_mesh, seam_line, signed_face, cell_line};
ghost use Rattle.listing.specs.Lines.{stop_text, ran_line, cells_line, euler_line, PutWithin, PlaceSmall, ColumnRoom};

use buffer::decimal::put_decimal;
use buffer::{put, put_all};
use grid::tests::column_last;
use maths::SIDE;
use rules::counts::Counts;

// A label and n in decimal.
fn put_labelled(out: &mut [u8], at: usize, label: &[u8], n: u16) -> usize
    requires { at + (length label.now + 5) ≤ length out.old }
    ensures { PutWithin (length label.now + 5) out.old at (label.now ++ decimal n) result out.new }
{
    let next = put_all(out, at, label);
    put_decimal(out, next, n)
}

// Whether a refusal is a fault of the form, which has a place.
fn is_fault(refusal: u8) -> bool
    ensures { result ≡ is_fault refusal }
{
    matches!(refusal, 3 | 4 | 14)
}

// A refusal, and the place of a fault.
fn put_refusal(out: &mut [u8], at: usize, refusal: u8, place: u32) -> usize
    requires at_in_bounds { at + 23 ≤ length out.old }
    requires place_small { PlaceSmall refusal place }
    ensures { PutWithin 23 out.old at (stop_text refusal place) result out.new }
{
    let next = put_labelled(out, at, b" refusal ", refusal.into());
    if is_fault(refusal) {
        return put_labelled(out, next, b" at ", place as u16);
    }
    next
}

// How many operators ran, the refusal, and the place of a fault.
pub(crate) fn line_ran(out: &mut [u8], at: usize, ran: u16, refusal: u8, place: u32) -> usize
    requires at_in_bounds { at + 40 ≤ length out.old }
    requires place_small { PlaceSmall refusal place }
    ensures { PutWithin 40 out.old at (ran_line ran refusal place) result out.new }
{
    let mut next = put_labelled(out, at, b"ran ", ran);
    next = put_refusal(out, next, refusal, place);
    put(out, next, b'\n')
}

// The refusal of a mesh, and the place of a fault.
pub fn line_mesh(out: &mut [u8], at: usize, refusal: u8, place: u32) -> usize
    requires at_in_bounds { at + 32 ≤ length out.old }
    requires place_small { PlaceSmall refusal place }
    ensures { PutWithin 32 out.old at (printed_mesh refusal place) result out.new }
{
    let mut next = put_all(out, at, b"mesh");
    next = put_refusal(out, next, refusal, place);
    put(out, next, b'\n')
}

// The four counts.
pub(crate) fn line_cells(out: &mut [u8], at: usize, c: Counts) -> usize
    requires { at + 32 ≤ length out.old }
    ensures { PutWithin 32 out.old at (cells_line c) result out.new }
{
    let [corners, seams, panels, blocks] = c.n;
    let mut next = put_labelled(out, at, b"cells ", corners.into());
    next = put_labelled(out, next, b" ", seams.into());
    next = put_labelled(out, next, b" ", panels.into());
    next = put_labelled(out, next, b" ", blocks.into());
    put(out, next, b'\n')
}

// The Euler number.
pub(crate) fn line_euler(out: &mut [u8], at: usize, z: i16) -> usize
    requires { at + 32 ≤ length out.old }
    ensures { PutWithin 32 out.old at (euler_line z) result out.new }
{
    let mut next = put_all(out, at, b"euler ");
    next = put_decimal(out, next, z);
    put(out, next, b'\n')
}

// Seam j: its tail and its head.
pub(crate) fn line_seam(out: &mut [u8], at: usize, j: u8, m: &[i8]) -> usize
    requires { ColumnRoom m.now j out.old at 32 }
    ensures { PutWithin 32 out.old at (seam_line j (column m.now j)) result out.new }
{
    let tail = column_last(m, j as usize, -1) as u16;
    let head = column_last(m, j as usize, 1) as u16;
    let mut next = put_labelled(out, at, b"e ", j.into());
    next = put_labelled(out, next, b" ", tail);
    next = put_labelled(out, next, b" ", head);
    put(out, next, b'\n')
}

// Face i, whose entry is z: nothing where that is 0.
fn put_face(out: &mut [u8], at: usize, i: u16, z: i8) -> usize
    requires { at + 7 ≤ length out.old }
    ensures { Put out.old at (one_face signed_face i z) result out.new }
{
    if z < 0 {
        put_labelled(out, at, b" -", i)
    } else if 0 < z {
        put_labelled(out, at, b" +", i)
    } else {
        at
    }
}

// The faces of column j, rising.
fn put_faces(out: &mut [u8], at: usize, j: u8, m: &[i8]) -> usize
    requires { ColumnRoom m.now j out.old at 390 }
    ensures { PutWithin 384 out.old at (each_face signed_face (column m.now j)) result out.new }
{
    let s = SIDE * j as usize;
    let mut next = at;
    for (i, z) in m[s..s + SIDE].iter().enumerate() {
        next = put_face(out, next, i as u16, *z);
    }
    next
}

// Panel or block j, as the letter says: its signed faces.
pub(crate) fn line_cell(out: &mut [u8], at: usize, letter: u8, j: u8, m: &[i8]) -> usize
    requires { ColumnRoom m.now j out.old at 400 }
    ensures { PutWithin 400 out.old at (cell_line (letter ∷ []) j (column m.now j)) result out.new }
{
    let mut next = put(out, at, letter);
    next = put_labelled(out, next, b" ", j.into());
    next = put_faces(out, next, j, m);
    put(out, next, b'\n')
}
