// One operator on a good pattern.
ghost use Rattle.std.specs.Prelude.{◌≡◌};
ghost use Rattle.rules.specs.Complex.{complex};
ghost use Rattle.rules.specs.Operators.{step};
ghost use Rattle.rules.specs.Form.{faces_of};
ghost use Rattle.rules.specs.Calls.{applied};
ghost use Rattle.rules.specs.Lending.{lent_by, applied_to, SameLoans};
ghost use Rattle.rules.specs.Good.{Held};
ghost use Rattle.engine.specs.Source.{ReadFrom};

use operators::flip::flip;
use operators::kill::kill;
use operators::make::make;
use operators::merge::merge;
use operators::split::split;
use rules::counts::Counts;
use rules::operator::Operator;
use rules::pattern::Pattern;
use rules::refusals::Refusal;

// The operator o, which was read from the bytes s.
pub(crate) fn apply(p: &mut Pattern, o: Operator, s: &[u8]) -> Result<Counts, Refusal>
    requires held { Held (lent_by p.old) }
    requires read_from { ReadFrom s.now o }
    ensures does { applied_to result p.new ≡ applied (lent_by p.old) (step o (faces_of s.now o) (complex (lent_by p.old))) }
    ensures same { SameLoans p.old p.new }
{
    match o {
        Operator::Make { dim, list } => make(p, dim, s, list),
        Operator::Kill { dim, cell } => kill(p, dim, cell),
        Operator::Split { dim, cell, list } => split(p, dim, cell, s, list),
        Operator::Merge { dim, cell } => merge(p, dim, cell),
        Operator::Flip { dim, cell } => flip(p, dim, cell),
    }
}
