// Tests of one matrix, column by column.
ghost use Rattle.std.specs.Prelude.{◌≡◌, not, length};
ghost use Rattle.maths.specs.Tests.{all};
ghost use Rattle.maths.specs.Tables.{entries};
ghost use Rattle.rules.specs.Good.{one_each, all_zero, in_place};
ghost use Rattle.rules.specs.Complex.{layer};
ghost use Rattle.grid.specs.Grid.{Columns, nth};
ghost use Rattle.good.specs.Columns.{column_in_place, Column, Matrix};

use grid::runs::{are_units, are_zero, column, times_of};
use maths::SIDE;

// Whether a column is -1, 0 or 1 in the rows below the count and 0 past it.
fn column_in_place(column: &[i8], rows: usize) -> bool
    requires { Column column.now rows }
    ensures { result ≡ column_in_place column.now rows }
{
    are_units(&column[..rows]) & are_zero(&column[rows..])
}

// Whether every entry is -1, 0 or 1, and 0 where its row or column is not below its count.
pub fn in_place(m: &[i8], rows: usize, n: usize) -> bool
    requires { Matrix m.now rows n }
    ensures { result ≡ in_place rows (layer n m.now) }
{
    (0..n).all(|j| column_in_place(column(m, j), rows)) && are_zero(&m[SIDE * n..])
}

// Whether a column has exactly one -1 and one +1.
fn one_each(column: &[i8]) -> bool
    requires { length column.now ≡ 96 }
    ensures { result ≡ one_each (nth column.now) }
{
    (times_of(column, -1) == 1) & (times_of(column, 1) == 1)
}

// Whether each of n seam columns has exactly one -1 and one +1.
pub fn seams(m: &[i8], n: usize) -> bool
    requires { Columns m.now n }
    ensures { result ≡ all n (λ j. one_each (λ i. entries m.now i j)) }
{
    (0..n).all(|j| one_each(column(m, j)))
}

// Whether each of n columns has some entry that is not 0.
pub fn faces(m: &[i8], n: usize) -> bool
    requires { Columns m.now n }
    ensures { result ≡ all n (λ j. not (all_zero (λ i. entries m.now i j))) }
{
    (0..n).all(|j| !are_zero(column(m, j)))
}
