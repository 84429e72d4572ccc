// Make: one more cell, with the given column.
ghost use Rattle.std.specs.Prelude.{◌≡◌, IfOk};
ghost use Rattle.rules.specs.Complex.{complex};
ghost use Rattle.rules.specs.Operators.{make_step};
ghost use Rattle.rules.specs.Form.{made_of};
ghost use Rattle.rules.specs.Calls.{applied};
ghost use Rattle.rules.specs.Lending.{lent_by, applied_to, SameLoans};
ghost use Rattle.rules.specs.Good.{Held};
ghost use Rattle.operators.specs.Column.{MakeForm};

use crate::append::append;
use crate::faces::draw;
use maths::MOST;
use rules::counts::Counts;
use rules::pattern::Pattern;
use rules::refusals::Refusal;

// A cell of dimension dim, whose faces are listed from `list` on.
pub fn make(p: &mut Pattern, dim: u8, s: &[u8], list: usize) -> Result<Counts, Refusal>
    requires held { Held (lent_by p.old) }
    requires make_form { MakeForm s.now dim list }
    ensures does { applied_to result p.new ≡ applied (lent_by p.old) (make_step dim (made_of s.now dim list) (complex (lent_by p.old))) }
    ensures counts { IfOk result (λ c. c ≡ p.new.counts) }
    ensures same { SameLoans p.old p.new }
{
    let k = dim as usize;
    // a corner has no faces, so any count will do
    let below = p.counts.n[k.saturating_sub(1)];
    let Some(column) = draw(s, dim, list, below) else {
        return Err(Refusal::NoSuchCell);
    };
    if MOST <= p.counts.n[k] {
        return Err(Refusal::NoRoom);
    }
    if !append(p, k, &column) {
        return Err(Refusal::NotClosed);
    }
    p.counts = p.counts.grown(k);
    Ok(p.counts)
}
