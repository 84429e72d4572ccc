// Whether a lent pattern is good.
#![tactic(auto)]

ghost use Rattle.std.specs.Prelude.{◌≡◌};
ghost use Rattle.good.specs.Tested.{tested};
ghost use Rattle.rules.specs.Calls.{sized};
ghost use Rattle.rules.specs.Lending.{seen_by};
ghost use Rattle.rules.specs.Told.{number_told};

use crate::pattern::is_good;
use maths::SIZE;
use rules::pattern::View;
use rules::refusals::Refusal;

mod columns;
mod pattern;
mod products;

// Whether each matrix has 9,216 entries.
pub fn is_sized(p: View) -> bool
    ensures { result ≡ sized (seen_by p.entry) }
{
    (p.m1.len() == SIZE) & (p.m2.len() == SIZE) & (p.m3.len() == SIZE)
}

// The refusal of a lent pattern, if it has one: 1 where a matrix is not 9,216 long, else 2 where the pattern is not good.
pub fn refusal_of_pattern(p: View) -> Result<(), Refusal>
    ensures { number_told result ≡ tested (seen_by p.entry) }
{
    if !is_sized(p) {
        return Err(Refusal::WrongLength);
    }
    if !is_good(p) {
        return Err(Refusal::NotGood);
    }
    Ok(())
}
