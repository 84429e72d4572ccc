// Kill: a cell is removed, and higher numbers of its dimension drop by one.
ghost use Rattle.std.specs.Prelude.{◌≡◌, suc, IfOk};
ghost use Rattle.rules.specs.Complex.{complex, stored};
ghost use Rattle.rules.specs.Good.{all_zero, Held};
ghost use Rattle.rules.specs.Edits.{kill};
ghost use Rattle.rules.specs.Operators.{kill_step};
ghost use Rattle.rules.specs.Calls.{applied};
ghost use Rattle.rules.specs.Lending.{lent_by, seen_by, applied_to, SameLoans};
ghost use Rattle.operators.specs.Cells.{Dimension, Cell};

use grid::removals::{remove_column, remove_row};
use grid::tests::row_zero;
use rules::counts::Counts;
use rules::pattern::{Pattern, View};
use rules::refusals::Refusal;

// Whether no cell has this one as a face: its row in the matrix above is zero, and nothing is above blocks.
fn is_free(p: View, dim: u8, cell: usize) -> bool
    requires { Cell 0 3 (seen_by p) dim cell }
    ensures { result ≡ all_zero (λ j. (complex (seen_by p.entry) (suc dim)).d cell j) }
{
    match dim {
        0 => row_zero(p.m1, cell),
        1 => row_zero(p.m2, cell),
        2 => row_zero(p.m3, cell),
        _ => true,
    }
}

// The cell is counted no more, and its column and row are closed up; no matrix has a corner's column or a block's row.
fn kill_at(p: &mut Pattern, dim: u8, cell: usize)
    requires { Cell 0 3 (lent_by p.old) dim cell }
    ensures does { lent_by p.new ≡ stored (kill dim cell (complex (lent_by p.old))) }
    ensures same { SameLoans p.old p.new }
{
    p.counts = p.counts.shrunk(dim as usize);
    match dim {
        0 => remove_row(p.m1, cell),
        1 => {
            remove_column(p.m1, cell);
            remove_row(p.m2, cell);
        }
        2 => {
            remove_column(p.m2, cell);
            remove_row(p.m3, cell);
        }
        _ => remove_column(p.m3, cell),
    }
}

// Kill dim: the cell is removed where no other has it as a face.
pub fn kill(p: &mut Pattern, dim: u8, cell: u8) -> Result<Counts, Refusal>
    requires dimension { Dimension 0 3 dim }
    requires held { Held (lent_by p.old) }
    ensures does { applied_to result p.new ≡ applied (lent_by p.old) (kill_step dim cell (complex (lent_by p.old))) }
    ensures counts { IfOk result (λ c. c ≡ p.new.counts) }
    ensures same { SameLoans p.old p.new }
{
    let k = dim as usize;
    if p.counts.n[k] <= cell {
        return Err(Refusal::NoSuchCell);
    }
    let j = cell as usize;
    if !is_free(p.view(), dim, j) {
        return Err(Refusal::InUse);
    }
    kill_at(p, dim, j);
    Ok(p.counts)
}
