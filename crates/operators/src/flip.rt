// Flip: a cell is turned round.
ghost use Rattle.std.specs.Prelude.{◌≡◌, IfOk};
ghost use Rattle.rules.specs.Complex.{complex, stored};
ghost use Rattle.rules.specs.Edits.{layers, flip};
ghost use Rattle.rules.specs.Operators.{flip_step};
ghost use Rattle.rules.specs.Calls.{applied};
ghost use Rattle.rules.specs.Lending.{lent_by, applied_to, SameLoans};
ghost use Rattle.rules.specs.Good.{Held};
ghost use Rattle.operators.specs.Cells.{Dimension, Cell};

use grid::changes::{negate_column, negate_row};
use rules::counts::Counts;
use rules::pattern::Pattern;
use rules::refusals::Refusal;

// Cell `cell` is turned round in the matrices that have its column and its row; no matrix has a block's row.
fn flip_at(p: &mut Pattern, dim: u8, cell: usize)
    requires { Cell 1 3 (lent_by p.old) dim cell }
    ensures does { lent_by p.new ≡ stored (layers (flip dim cell (complex (lent_by p.old)))) }
    ensures same { SameLoans p.old p.new }
{
    match dim {
        1 => {
            negate_column(p.m1, cell);
            negate_row(p.m2, cell);
        }
        2 => {
            negate_column(p.m2, cell);
            negate_row(p.m3, cell);
        }
        _ => negate_column(p.m3, cell),
    }
}

// Flip dim: cell `cell` is turned round.
pub fn flip(p: &mut Pattern, dim: u8, cell: u8) -> Result<Counts, Refusal>
    requires dimension { Dimension 1 3 dim }
    requires held { Held (lent_by p.old) }
    ensures does { applied_to result p.new ≡ applied (lent_by p.old) (flip_step dim cell (complex (lent_by p.old))) }
    ensures counts { IfOk result (λ c. c ≡ p.new.counts) }
    ensures same { SameLoans p.old p.new }
{
    let k = dim as usize;
    if p.counts.n[k] <= cell {
        return Err(Refusal::NoSuchCell);
    }
    flip_at(p, dim, cell as usize);
    Ok(p.counts)
}
