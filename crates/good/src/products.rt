// Whether one matrix times the next is zero: for each column of the next, sums of columns of the first.
ghost use Rattle.std.specs.Prelude.{◌≡◌, ◌≤◌};
ghost use Rattle.maths.specs.Tests.{all};
ghost use Rattle.maths.specs.Tables.{entries};
ghost use Rattle.rules.specs.Good.{closes};
ghost use Rattle.rules.specs.Complex.{layer};
ghost use Rattle.good.specs.Columns.{Neighbours};

use grid::runs::column;
use grid::sums::columns_cancel;

// Whether each of n columns of `high`, a chain of cells of `low`, has boundary zero. With `all` in place of the loop the check takes a third longer.
pub fn product_zero(low: &[i8], high: &[i8], between: usize, n: usize) -> bool
    requires neighbours { Neighbours low.now high.now between }
    requires n_bound { n ≤ 96 }
    ensures { result ≡ all n (λ j. closes 96 (layer between low.now) (λ i. entries high.now i j)) }
{
    for j in 0..n {
        if !columns_cancel(low, &column(high, j)[..between]) {
            return false;
        }
    }
    true
}
