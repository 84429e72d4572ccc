// The column of a new cell: tested against the matrix below its own, and then stored.
ghost use Rattle.std.specs.Prelude.{◌≡◌, not, ◌&&◌};
ghost use Rattle.rules.specs.Good.{all_zero, closes};
ghost use Rattle.rules.specs.Calls.{coefficients};
ghost use Rattle.rules.specs.Lending.{lent_by, answered, SameLoans};
ghost use Rattle.rules.specs.Complex.{layer};
ghost use Rattle.operators.specs.Append.{tried, set_if, appended, Storable, Closable, Appendable};

use grid::changes::set_column;
use grid::runs::are_zero;
use grid::sums::columns_cancel;
use rules::pattern::Pattern;

// The column is stored at `at`, if it is not zero.
fn set_some(column: &[i8], m: &mut [i8], at: usize) -> bool
    requires { Storable column.now m.old at }
    ensures { tried result m.new ≡ set_if (not (all_zero (coefficients column.now))) at column.now m.old }
{
    if are_zero(column) {
        return false;
    }
    set_column(m, at, column);
    true
}

// The column is stored at `at`, if it is not zero and has boundary zero in the matrix below.
fn set_closed(low: &[i8], n: usize, column: &[i8], m: &mut [i8], at: usize) -> bool
    requires { Closable low.now n column.now m.old at }
    ensures { tried result m.new ≡ set_if (not (all_zero (coefficients column.now)) && closes 96 (layer n low.now) (coefficients column.now)) at column.now m.old }
{
    if !columns_cancel(low, &column[..n]) {
        return false;
    }
    set_some(column, m, at)
}

// The column of a new cell of dimension k is stored in matrix k, if it closes.
pub(crate) fn append(p: &mut Pattern, k: usize, column: &[i8]) -> bool
    requires { Appendable k column.now (lent_by p.old) }
    ensures does { answered result p.new ≡ appended k (coefficients column.now) (lent_by p.old) }
    ensures counts { p.new.counts ≡ p.old.counts }
    ensures same { SameLoans p.old p.new }
{
    let n1 = p.counts.n[1] as usize;
    let n2 = p.counts.n[2] as usize;
    let n3 = p.counts.n[3] as usize;
    // the matrix below is lent by `&mut`: no field is read while another is lent
    match k {
        0 => true,
        1 => set_some(column, p.m1, n1),
        2 => {
            let low = &mut *p.m1;
            set_closed(low, n1, column, p.m2, n2)
        }
        _ => {
            let low = &mut *p.m2;
            set_closed(low, n2, column, p.m3, n3)
        }
    }
}
