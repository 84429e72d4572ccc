// A script's operators, one after another.
ghost use Rattle.std.specs.Prelude.{◌≡◌, ◌+◌, ◌<◌, ◌≤◌, eqb, length, get_or};
ghost use Rattle.maths.specs.Tests.{all};
ghost use Rattle.rules.specs.Counts.{count_of};
ghost use Rattle.rules.specs.Lending.{lent_by, SameLoans};
ghost use Rattle.rules.specs.Good.{Held};
ghost use Rattle.engine.specs.Running.{Runnable, OperatorRun, RunTo};

use crate::apply::apply;
use form::operators::read_operator;
use rules::answers::ScriptRun;
use rules::counts::Counts;
use rules::pattern::Pattern;
use rules::refusals::Stop;

// Whether the base counts of a script are c.
pub(crate) fn same_base(c: Counts, s: &[u8]) -> bool
    requires { 4 < length s.now }
    ensures { result ≡ all 4 (λ k. eqb (get_or s.now (k + 1) 0) (count_of c k)) }
{
    s[1..5] == c.n[..]
}

// The operator that stands at a place, and the place after it.
fn run_one(p: &mut Pattern, s: &[u8], at: usize) -> Result<usize, Stop>
    requires { Held (lent_by p.old) }
    ensures does { OperatorRun s.now at (lent_by p.old) result (lent_by p.new) }
    ensures same { SameLoans p.old p.new }
{
    let (o, next) = read_operator(s, at)?;
    apply(p, o, s)?;
    Ok(next)
}

// n operators from place 7 on, up to the first refusal.
pub(crate) fn run_operators(p: &mut Pattern, n: usize, s: &[u8]) -> ScriptRun
    requires { Runnable n s.now (lent_by p.old) }
    ensures does { RunTo s.now n (lent_by p.old) result (lent_by p.new) }
    ensures same { SameLoans p.old p.new }
{
    let mut next = 7;
    for ran in 0..n {
        match run_one(p, s, next) {
            Ok(after) => next = after,
            Err(stop) => {
                return ScriptRun {
                    ran: ran as u16,
                    ended: Err(stop),
                };
            }
        }
    }
    ScriptRun {
        ran: n as u16,
        ended: Ok(()),
    }
}
