// What an accepted operator adds to the Euler number.
ghost use Rattle.std.specs.Prelude.{◌≡◌, ◌<◌};
ghost use Rattle.rules.specs.Operators.{amount_at, amount_of, dimension_of};

use crate::operator::Operator;

// A row for each kind: make, kill, split, merge, flip; a column for each dimension.
const AMOUNTS: [[i8; 4]; 5] = [
    [1, -1, 1, -1],
    [-1, 1, -1, 1],
    [0, 0, 0, 0],
    [0, 0, 0, 0],
    [0, 0, 0, 0],
];

// The table's entry for a kind and a dimension.
pub fn amount_at(kind: usize, dim: usize) -> i8
    requires { (kind < 5) × (dim < 4) }
    ensures { result ≡ amount_at kind dim }
{
    AMOUNTS[kind][dim]
}

// The table's entry for the operator's kind and dimension.
pub fn amount(o: Operator) -> i8
    requires { dimension_of o < 4 }
    ensures { result ≡ amount_of o }
{
    match o {
        Operator::Make { dim, .. } => amount_at(0, dim as usize),
        Operator::Kill { dim, .. } => amount_at(1, dim as usize),
        Operator::Split { dim, .. } => amount_at(2, dim as usize),
        Operator::Merge { dim, .. } => amount_at(3, dim as usize),
        Operator::Flip { dim, .. } => amount_at(4, dim as usize),
    }
}
