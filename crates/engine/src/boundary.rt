// The boundary of a chain: the columns of a matrix, each times its coefficient, are added.
ghost use Rattle.std.specs.Prelude.{◌≡◌, pos, ◌*ℤ◌, get_or};
ghost use Rattle.grid.specs.Grid.{plus};
ghost use Rattle.rules.specs.Calls.{given, boundary_call};
ghost use Rattle.rules.specs.Told.{number_told};
ghost use Rattle.rules.specs.Lending.{seen_by};
ghost use Rattle.engine.specs.Boundaries.{product, Terms, Factors};

use crate::chains::is_chain;
use good::refusal_of_pattern;
use maths::SIDE;
use rules::pattern::View;
use rules::refusals::Refusal;

// How far from 0 a coefficient may be.
const BOUNDARY_LIMIT: u32 = 1_000_000;

// A column is added v times.
fn add_times(sums: &mut [i32], column: &[i8], v: i32)
    requires { Terms sums.old column.now v }
    ensures { sums.new ≡ plus sums.old (λ i. get_or column.now i (pos 0) *ℤ v) }
{
    for (i, e) in column.iter().enumerate() {
        sums[i] += *e as i32 * v;
    }
}

// The matrix times the chain.
fn multiply(m: &[i8], chain: &[i32], out: &mut [i32])
    requires { Factors m.now chain.now out.old }
    ensures { out.new ≡ product m.now chain.now 96 }
{
    out.fill(0);
    for (j, v) in chain.iter().enumerate() {
        add_times(out, &m[SIDE * j..SIDE * (j + 1)], *v);
    }
}

// The boundary of a chain of cells of dimension d, or a refusal by 1, 2, 4 or 16, in this order, and then nothing is changed.
pub fn boundary(p: View, d: u8, chain: &[i32], out: &mut [i32]) -> Result<(), Refusal>
    ensures { given (number_told result) out.new ≡ boundary_call (seen_by p.entry) d chain.now out.old }
{
    if chain.len() != SIDE || out.len() != SIDE {
        return Err(Refusal::WrongLength);
    }
    refusal_of_pattern(p)?;
    let m = match d {
        1 => p.m1,
        2 => p.m2,
        3 => p.m3,
        _ => return Err(Refusal::WrongDimension),
    };
    if !is_chain(BOUNDARY_LIMIT, p.counts.n[d as usize], chain) {
        return Err(Refusal::WrongChain);
    }
    multiply(m, chain, out);
    Ok(())
}
