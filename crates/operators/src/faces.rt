// The column that the faces of a new cell add up to.
ghost use Rattle.std.specs.Prelude.{◌≡◌, ◌≤◌, length};
ghost use Rattle.rules.specs.Form.{sign_of, made_of};
ghost use Rattle.operators.specs.Column.{Drawable, ends, pairs_of, drawn};

use maths::SIDE;

// A seam's column, if tail and head are among n corners.
fn draw_seam(n: u8, tail: u8, head: u8) -> Option<[i8; SIDE]>
    requires { n ≤ 96 }
    ensures { result ≡ drawn n (ends tail head) }
{
    if n <= tail {
        return None;
    }
    if n <= head {
        return None;
    }
    let mut column = [0; SIDE];
    column[tail as usize] = -1;
    column[head as usize] += 1;
    Some(column)
}

// The sign that a byte says: 1 for plus, and 2 for minus.
fn sign_of(b: u8) -> i8
    ensures { result ≡ sign_of b }
{
    if b == 1 { 1 } else { -1 }
}

// The column of pairs of a number and a sign, if all the numbers are below n.
fn draw_pairs(n: u8, pairs: &[u8]) -> Option<[i8; SIDE]>
    requires few { n ≤ 96 }
    requires short { length pairs.now ≤ 192 }
    ensures { result ≡ drawn n (pairs_of pairs.now) }
{
    let mut column = [0; SIDE];
    for pair in pairs.chunks_exact(2) {
        if n <= pair[0] {
            return None;
        }
        column[pair[0] as usize] += sign_of(pair[1]);
    }
    Some(column)
}

// The column of the faces that are listed at `list`, if all are among n cells. A corner has none.
pub(crate) fn draw(s: &[u8], dim: u8, list: usize, n: u8) -> Option<[i8; SIDE]>
    requires { Drawable s.now dim list n }
    ensures { result ≡ drawn n (made_of s.now dim list) }
{
    match dim {
        0 => Some([0; SIDE]),
        1 => draw_seam(n, s[list], s[list + 1]),
        _ => {
            let first = list + 1;
            let count = s[list] as usize;
            draw_pairs(n, &s[first..first + 2 * count])
        }
    }
}
