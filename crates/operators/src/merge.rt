// Merge: the two cells that a cell lies between become one, and the cell goes.
ghost use Rattle.std.specs.Prelude.{◌≡◌, suc, IfOk};
ghost use Rattle.maths.specs.Tables.{entries, tab};
ghost use Rattle.grid.specs.Grid.{Line, Lines};
ghost use Rattle.rules.specs.Complex.{complex, stored, layer};
ghost use Rattle.rules.specs.Good.{one_each, Held};
ghost use Rattle.rules.specs.Edits.{merged, merge};
ghost use Rattle.rules.specs.Operators.{merge_step};
ghost use Rattle.rules.specs.Calls.{applied};
ghost use Rattle.rules.specs.Lending.{lent_by, seen_by, applied_to, SameLoans};
ghost use Rattle.operators.specs.Cells.{Dimension, Cell};
ghost use Rattle.operators.specs.Joins.{shared_by, sides_of, Apart, Between};

use grid::changes::add_column;
use grid::removals::{remove_column, remove_row};
use grid::runs::column;
use grid::tests::{row_last, row_times};
use maths::SIDE;
use rules::counts::Counts;
use rules::pattern::{Pattern, View};
use rules::refusals::Refusal;

// Whether row t has exactly one -1 and one +1.
fn is_between(d: &[i8], t: usize) -> bool
    requires { Line d.now t }
    ensures { result ≡ one_each (λ j. entries d.now t j) }
{
    row_times(d, t, -1) == 1 && row_times(d, t, 1) == 1
}

// How many faces columns a and b share.
fn shared(d: &[i8], a: usize, b: usize) -> u8
    requires { Lines d.now a b }
    ensures { result ≡ shared_by (entries d.now) a b }
{
    column(d, a)
        .iter()
        .zip(column(d, b))
        .map(|(x, y)| ((*x != 0) & (*y != 0)) as u8)
        .sum()
}

// The two cells that cell t lies between, the lower first, in the matrix that has its row; or why they cannot be merged.
fn sides_in(d: &[i8], t: usize) -> Result<(usize, usize), Refusal>
    requires { Line d.now t }
    ensures { result ≡ sides_of (entries d.now) t }
{
    let between = is_between(d, t);
    let b = row_last(d, t, SIDE);
    let a = row_last(d, t, b);
    // where t lies between them, t is one face that they share
    let alone = shared(d, a, b) == 1;
    if !between {
        return Err(Refusal::NotBetween);
    }
    if !alone {
        return Err(Refusal::SharedFace);
    }
    // no test for 12: the sum of two such columns is within -1 to 1 and not all 0
    Ok((a, b))
}

// The same in the pattern: the matrix above has a cell's row.
fn sides_at(p: View, dim: u8, t: usize) -> Result<(usize, usize), Refusal>
    requires { Cell 0 2 (seen_by p) dim t }
    ensures { result ≡ sides_of (complex (seen_by p.entry) (suc dim)).d t }
{
    match dim {
        0 => sides_in(p.m1, t),
        1 => sides_in(p.m2, t),
        _ => sides_in(p.m3, t),
    }
}

// Column a becomes the sum of columns a and b; column b and row t go.
fn join(d: &mut [i8], t: usize, a: usize, b: usize)
    requires { Apart d.old t a b }
    ensures { d.new ≡ tab (merged t a b (layer 0 d.old)).d }
{
    add_column(d, a, b);
    remove_column(d, b);
    remove_row(d, t);
}

// Cell t goes, and of the two beside it the higher; no matrix has a corner's column or a block's row.
fn merge_at(p: &mut Pattern, dim: u8, t: usize, a: usize, b: usize)
    requires { Between (lent_by p.old) dim t a b }
    ensures does { lent_by p.new ≡ stored (merge dim t a b (complex (lent_by p.old))) }
    ensures same { SameLoans p.old p.new }
{
    let k = dim as usize;
    p.counts = p.counts.shrunk(k).shrunk(k + 1);
    match dim {
        0 => {
            join(p.m1, t, a, b);
            remove_row(p.m2, b);
        }
        1 => {
            remove_column(p.m1, t);
            join(p.m2, t, a, b);
            remove_row(p.m3, b);
        }
        _ => {
            remove_column(p.m2, t);
            join(p.m3, t, a, b);
        }
    }
}

// Merge at dim: the two cells that the cell lies between become one.
pub fn merge(p: &mut Pattern, dim: u8, cell: u8) -> Result<Counts, Refusal>
    requires dimension { Dimension 0 2 dim }
    requires held { Held (lent_by p.old) }
    ensures does { applied_to result p.new ≡ applied (lent_by p.old) (merge_step dim cell (complex (lent_by p.old))) }
    ensures counts { IfOk result (λ c. c ≡ p.new.counts) }
    ensures same { SameLoans p.old p.new }
{
    let k = dim as usize;
    if p.counts.n[k] <= cell {
        return Err(Refusal::NoSuchCell);
    }
    let t = cell as usize;
    let (a, b) = sides_at(p.view(), dim, t)?;
    merge_at(p, dim, t, a, b);
    Ok(p.counts)
}
