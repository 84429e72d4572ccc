// Tests of a whole pattern: the counts, then the entries, then the columns and products.
ghost use Rattle.std.specs.Prelude.{◌≡◌, true};
ghost use Rattle.rules.specs.Complex.{complex};
ghost use Rattle.rules.specs.Good.{is_good};
ghost use Rattle.rules.specs.Calls.{sized};
ghost use Rattle.rules.specs.Lending.{seen_by};
ghost use Rattle.good.specs.Parts.{few_cells, formed, sound, Stored, AllPlaced};

use crate::columns::{faces, in_place, seams};
use crate::products::product_zero;
use maths::MOST;
use rules::counts::Counts;
use rules::pattern::View;

// Whether every count is at most 96.
fn few(c: Counts) -> bool
    ensures { result ≡ few_cells c }
{
    c.n.iter().all(|n| *n <= MOST)
}

// Whether the columns in use are formed as they must be, where all entries are in place.
fn is_formed(p: View) -> bool
    requires stored { Stored (seen_by p) }
    requires all_placed { AllPlaced (seen_by p) }
    ensures { result ≡ formed (complex (seen_by p.entry)) }
{
    let n1 = p.counts.n[1] as usize;
    let n2 = p.counts.n[2] as usize;
    let n3 = p.counts.n[3] as usize;
    seams(p.m1, n1)
        & (faces(p.m2, n2) & faces(p.m3, n3))
        & (product_zero(p.m1, p.m2, n1, n2) & product_zero(p.m2, p.m3, n2, n3))
}

// Whether all entries are in place, and then whether the columns are formed.
fn is_sound(p: View) -> bool
    requires { Stored (seen_by p) }
    ensures { result ≡ sound (complex (seen_by p.entry)) }
{
    let n0 = p.counts.n[0] as usize;
    let n1 = p.counts.n[1] as usize;
    let n2 = p.counts.n[2] as usize;
    let n3 = p.counts.n[3] as usize;
    (in_place(p.m1, n0, n1) & in_place(p.m2, n1, n2) & in_place(p.m3, n2, n3)) && is_formed(p)
}

// Whether four counts and three matrices make a good pattern.
pub fn is_good(p: View) -> bool
    requires { sized (seen_by p) ≡ true }
    ensures { result ≡ is_good (complex (seen_by p.entry)) }
{
    few(p.counts) && is_sound(p)
}
