// The stores of a split: the dividing cell's column, the two halves, and the row of the new half.
ghost use Rattle.std.specs.Prelude.{◌≡◌, cond, eqb, pos};
ghost use Rattle.maths.specs.Tests.{is_zero};
ghost use Rattle.grid.specs.Grid.{LineFor, over, with_column, copied_row};
ghost use Rattle.operators.specs.Split.{Halvable, Halved, Dividable, Repeatable, with_rest};

use grid::changes::{copy_row, set_column, set_entry};
use maths::SIDE;

// An entry, unless it is taken off.
fn rest8(x: i8, taken: i8) -> i8
    ensures { result ≡ cond (is_zero taken) x (pos 0) }
{
    if taken == 0 { x } else { 0 }
}

// The taken part is left out of column c. Each entry is stored anew: a store under a test would be a branch a row.
fn leave_rest(m: &mut [i8], c: usize, taken: &[i8])
    requires { LineFor m.old c taken.now }
    ensures { m.new ≡ over (with_rest c taken.now) m.old }
{
    let from = SIDE * c;
    for (i, x) in taken.iter().enumerate() {
        m[from + i] = rest8(m[from + i], *x);
    }
}

// The cell keeps the rest and the dividing cell t; the new one gets the taken part, and t the other way round.
pub(crate) fn halve(m: &mut [i8], cell: usize, t: usize, new: usize, taken: &[i8])
    requires { Halvable cell t new taken.now m.old }
    ensures { Halved cell t new taken.now m.old m.new }
{
    leave_rest(m, cell, taken);
    set_entry(m, t, cell, 1);
    set_column(m, new, taken);
    set_entry(m, t, new, -1);
}

// The dividing cell t gets its boundary. A corner has none.
pub(crate) fn set_divider(dim: u8, low: &mut [i8], t: usize, edge: &[i8])
    requires { Dividable dim low.old t edge.now }
    ensures { low.new ≡ cond (eqb dim 1) low.old (over (with_column t edge.now) low.old) }
{
    if dim != 1 {
        set_column(low, t, edge);
    }
}

// The new half is used as the cell is. A block is not used.
pub(crate) fn repeat_row(dim: u8, high: &mut [i8], cell: usize, new: usize)
    requires { Repeatable dim high.old cell new }
    ensures { high.new ≡ cond (eqb dim 3) high.old (over (copied_row cell new) high.old) }
{
    if dim != 3 {
        copy_row(high, cell, new);
    }
}
