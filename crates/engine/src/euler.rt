// The Euler number of a lent pattern.
ghost use Rattle.std.specs.Prelude.{◌≡◌};
ghost use Rattle.rules.specs.Counts.{count_of};
ghost use Rattle.rules.specs.Complex.{bare};
ghost use Rattle.rules.specs.Complex as complexes;
ghost use Rattle.rules.specs.Calls.{euler_call};
ghost use Rattle.rules.specs.Told.{euler_told};
ghost use Rattle.rules.specs.Lending.{seen_by};

use good::refusal_of_pattern;
use rules::counts::Counts;
use rules::pattern::View;
use rules::refusals::Refusal;

// The Euler number of four counts.
#[tactic(auto, unfolding(rules::specs::Complex::euler))]
fn alternating(c: Counts) -> i16
    ensures { result ≡ complexes.euler (λ k. bare (count_of c k)) }
{
    let [corners, seams, panels, blocks] = c.n;
    i16::from(corners) - i16::from(seams) + i16::from(panels) - i16::from(blocks)
}

// The Euler number of a lent pattern, or a refusal by 1 or 2, in this order.
pub fn euler(p: View) -> Result<i16, Refusal>
    ensures { euler_told result ≡ euler_call (seen_by p.entry) }
{
    refusal_of_pattern(p)?;
    Ok(alternating(p.counts))
}
