// The printed result in three pieces, each put at the front of a buffer: what comes before the panels, the panels, and the blocks. The answer is how long the piece is.
ghost use Rattle.std.specs.Prelude.{[], ◌∷◌};
ghost use Rattle.maths.specs.Buffers.{Put};
ghost use Rattle.rules.specs.Counts.{count_of};
ghost use Rattle.rules.specs.Printed.{seam_line, cell_line};
ghost use Rattle.listing.specs.Lines.{PlaceSmall};
ghost use Rattle.listing.specs.Pieces.{column_lines, run_text, LinesRoom};

use crate::lines::{line_cell, line_cells, line_euler, line_ran, line_seam};
use rules::counts::Counts;

// A line for each of the n seams, at a place.
fn put_seams(out: &mut [u8], at: usize, n: u8, m: &[i8]) -> usize
    requires { LinesRoom 32 m.now n out.old at }
    ensures { Put out.old at (column_lines seam_line n m.now) result out.new }
{
    let mut next = at;
    for j in 0..n {
        next = line_seam(out, next, j, m);
    }
    next
}

// How a script ended, the counts, the Euler number z and the seams.
pub fn put_run(
    out: &mut [u8],
    ran: u16,
    refusal: u8,
    place: u32,
    c: Counts,
    z: i16,
    m: &[i8],
) -> usize
    requires room { LinesRoom 32 m.now (count_of c 1) out.old 104 }
    requires place_small { PlaceSmall refusal place }
    ensures { Put out.old 0 (run_text ran refusal place c z m.now) result out.new }
{
    let mut next = line_ran(out, 0, ran, refusal, place);
    next = line_cells(out, next, c);
    next = line_euler(out, next, z);
    put_seams(out, next, c.n[1], m)
}

// A line for each of the n panels or blocks, as the letter says.
pub fn put_cells(out: &mut [u8], letter: u8, n: u8, m: &[i8]) -> usize
    requires { LinesRoom 400 m.now n out.old 0 }
    ensures { Put out.old 0 (column_lines (cell_line (letter ∷ [])) n m.now) result out.new }
{
    let mut next = 0;
    for j in 0..n {
        next = line_cell(out, next, letter, j, m);
    }
    next
}
