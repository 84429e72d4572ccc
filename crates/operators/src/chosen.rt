// The faces that a split chooses, as a column: the chosen part of the cell's boundary.
ghost use Rattle.std.specs.Prelude.{◌≡◌, ◌<◌, Option, length};
ghost use Rattle.std.specs.List.{All};
ghost use Rattle.rules.specs.Operators.{listed, all_below, chosen};
ghost use Rattle.rules.specs.Calls.{coefficients};
ghost use Rattle.operators.specs.Part.{ListForm, listing, numbers, head, part_of, part_taken, all_there, is_all_of, is_true_part};

use grid::runs::are_zero;
use maths::SIDE;

// The bytes of the listed numbers, whose count stands before them. A seam lists none.
pub(crate) fn listing(s: &[u8], dim: u8, list: usize) -> &[u8]
    requires { ListForm s.now dim list }
    ensures { result.now ≡ listing s.now dim list }
{
    if dim == 1 {
        return &[];
    }
    let first = list + 1;
    let count = s[list] as usize;
    &s[first..first + count]
}

// Whether every listed number is below n.
pub(crate) fn faces_below(faces: &[u8], n: u8) -> bool
    ensures { result ≡ all_below n (numbers faces.now) }
{
    faces.iter().all(|i| *i < n)
}

// A seam's part: its head.
fn take_head(column: &[i8]) -> [i8; SIDE]
    requires { length column.now ≡ 96 }
    ensures { result ≡ part_of (head (coefficients column.now)) (coefficients column.now) }
{
    let mut taken = [0; SIDE];
    for (i, x) in column.iter().enumerate() {
        taken[i] = (*x == 1) as i8;
    }
    taken
}

// A panel's or a block's part: its listed faces.
fn take_listed(faces: &[u8], column: &[i8]) -> [i8; SIDE]
    requires few { All (λ i. i < 96) faces.now }
    requires size { length column.now ≡ 96 }
    ensures { result ≡ part_of (listed (numbers faces.now)) (coefficients column.now) }
{
    let mut taken = [0; SIDE];
    for i in faces {
        taken[*i as usize] = column[*i as usize];
    }
    taken
}

// Whether each listed face has a non-zero entry.
fn listed_there(faces: &[u8], column: &[i8]) -> bool
    requires few { All (λ i. i < 96) faces.now }
    requires size { length column.now ≡ 96 }
    ensures { result ≡ all_there (numbers faces.now) (coefficients column.now) }
{
    faces.iter().all(|i| column[*i as usize] != 0)
}

// Whether all is taken.
fn is_whole(column: &[i8], taken: &[i8]) -> bool
    requires { (length column.now ≡ 96) × (length taken.now ≡ 96) }
    ensures { result ≡ is_all_of (coefficients taken.now) (coefficients column.now) }
{
    let left: u8 = column
        .iter()
        .zip(taken)
        .map(|(x, y)| (*x != *y) as u8)
        .sum();
    left == 0
}

// Whether the part has a face, and leaves one.
fn is_true_part(column: &[i8], taken: &[i8]) -> bool
    requires { (length column.now ≡ 96) × (length taken.now ≡ 96) }
    ensures { result ≡ is_true_part (coefficients taken.now) (coefficients column.now) }
{
    !are_zero(taken) && !is_whole(column, taken)
}

// The chosen part, where it is at least one face, not all, each with a non-zero entry.
pub(crate) fn take_part(dim: u8, faces: &[u8], column: &[i8]) -> Option<[i8; SIDE]>
    requires few { All (λ i. i < 96) faces.now }
    requires size { length column.now ≡ 96 }
    ensures { result ≡ part_taken (chosen dim (numbers faces.now) (coefficients column.now)) (coefficients column.now) }
{
    if dim == 1 {
        let taken = take_head(column);
        return is_true_part(column, &taken).then_some(taken);
    }
    if !listed_there(faces, column) {
        return None;
    }
    let taken = take_listed(faces, column);
    is_true_part(column, &taken).then_some(taken)
}
