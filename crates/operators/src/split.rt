// Split: a cell's boundary is divided into a chosen part and the rest, by a new cell between its two halves.
ghost use Rattle.std.specs.Prelude.{◌≡◌, ◌<◌, IfOk};
ghost use Rattle.std.specs.List.{All};
ghost use Rattle.maths.specs.Tables.{column};
ghost use Rattle.rules.specs.Complex.{complex};
ghost use Rattle.rules.specs.Operators.{chosen, split_step};
ghost use Rattle.rules.specs.Form.{chosen_of};
ghost use Rattle.rules.specs.Calls.{applied};
ghost use Rattle.rules.specs.Told.{number_told};
ghost use Rattle.rules.specs.Lending.{lent_by, answered, applied_to, SameLoans};
ghost use Rattle.rules.specs.Good.{Held};
ghost use Rattle.operators.specs.Part.{numbers};
ghost use Rattle.operators.specs.Split.{SplitForm, Prepared, Splittable, around, divided, part_step, leaves};

use crate::chosen::{faces_below, listing, take_part};
use crate::divider::boundary_of;
use crate::halves::{halve, repeat_row, set_divider};
use grid::runs::column;
use maths::MOST;
use rules::counts::Counts;
use rules::pattern::Pattern;
use rules::refusals::Refusal;

// A cell of the matrix `mid` is split by cell t of `low`, which is empty under seams; its new half gets its row in `high`, empty over blocks.
fn divide(
    dim: u8,
    cell: usize,
    t: usize,
    new: usize,
    faces: &[u8],
    low: &mut [i8],
    mid: &mut [i8],
    high: &mut [i8],
) -> Result<(), Refusal>
    requires few { All (λ i. i < 96) faces.now }
    requires splittable { Splittable dim cell t new low.old mid.old high.old }
    ensures { around (number_told result) low.new mid.new high.new ≡ divided dim cell t new (chosen dim (numbers faces.now) (column mid.old cell)) low.old mid.old high.old }
{
    let Some(taken) = take_part(dim, faces, column(mid, cell)) else {
        return Err(Refusal::WrongPart);
    };
    let Some(edge) = boundary_of(dim, low, &taken) else {
        return Err(Refusal::WrongDivider);
    };
    set_divider(dim, low, t, &edge);
    halve(mid, cell, t, new, &taken);
    repeat_row(dim, high, cell, new);
    Ok(())
}

// A cell of dimension dim is split in the matrices that have its faces, its column and its row, or refused by 9 or 10.
fn split_at(p: &mut Pattern, dim: u8, cell: usize, faces: &[u8]) -> Result<(), Refusal>
    requires { Prepared (lent_by p.old) faces.now dim cell }
    ensures does { answered (number_told result) p.new ≡ leaves (lent_by p.old) (part_step dim cell (numbers faces.now) (complex (lent_by p.old))) }
    ensures counts { p.new.counts ≡ p.old.counts }
    ensures same { SameLoans p.old p.new }
{
    let k = dim as usize;
    let t = p.counts.n[k - 1] as usize;
    let new = p.counts.n[k] as usize;
    match dim {
        1 => divide(dim, cell, t, new, faces, &mut [], p.m1, p.m2),
        2 => divide(dim, cell, t, new, faces, p.m1, p.m2, p.m3),
        _ => divide(dim, cell, t, new, faces, p.m2, p.m3, &mut []),
    }
}

// Split dim: the cell is divided into the listed faces, or a seam's head, and the rest.
pub fn split(p: &mut Pattern, dim: u8, cell: u8, s: &[u8], list: usize) -> Result<Counts, Refusal>
    requires held { Held (lent_by p.old) }
    requires split_form { SplitForm s.now dim cell list }
    ensures does { applied_to result p.new ≡ applied (lent_by p.old) (split_step dim cell (chosen_of s.now dim list) (complex (lent_by p.old))) }
    ensures counts { IfOk result (λ c. c ≡ p.new.counts) }
    ensures same { SameLoans p.old p.new }
{
    let k = dim as usize;
    let below = p.counts.n[k - 1];
    let here = p.counts.n[k];
    let faces = listing(s, dim, list);
    if !((cell < here) & faces_below(faces, below)) {
        return Err(Refusal::NoSuchCell);
    }
    if !((below < MOST) & (here < MOST)) {
        return Err(Refusal::NoRoom);
    }
    split_at(p, dim, cell as usize, faces)?;
    p.counts = p.counts.grown(k - 1).grown(k);
    Ok(p.counts)
}
