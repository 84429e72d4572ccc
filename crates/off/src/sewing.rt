// A ring is sewn on: the seams that are not there yet are made, and then the panel. Until all rings are sewn, the third matrix has the
// seams by their two ends.
ghost use Rattle.std.specs.Prelude.{◌≡◌, pred, nat_abs};
ghost use Rattle.maths.specs.Tables.{entries};
ghost use Rattle.grid.specs.Grid.{over, with_entry};
ghost use Rattle.off.specs.Sewing.{meet, signum, sew_ring};
ghost use Rattle.off.specs.Lying.{drawn, Stands, TwoCorners, NewSeam, Joined, RingSeams, SideRoom, SidesRoom, with_sides, RingDrawn, meet_sides, sewn_new};

use crate::rings::is_ring;
use grid::changes::set_entry;
use maths::SIDE;
use rules::counts::Counts;
use rules::refusals::Refusal;

// A seam from corner a to corner b is made.
fn add_seam(c: Counts, a: usize, b: usize, m1: &mut [i8], m3: &mut [i8]) -> Counts
    requires { NewSeam c a b m1.old m3.old }
    ensures { Joined (sewn_new a b) c m1.old (Ok result) m1.new m3.new }
{
    let j = c.n[1] as usize;
    let number = (j + 1) as i8;
    set_entry(m1, a, j, -1);
    set_entry(m1, b, j, 1);
    set_entry(m3, a, b, number);
    set_entry(m3, b, a, -number);
    c.grown(1)
}

// The seam between corners a and b, from a to b if it is not there yet.
fn meet_side(c: Counts, a: usize, b: usize, m1: &mut [i8], m3: &mut [i8]) -> Result<Counts, Refusal>
    requires { TwoCorners c a b m1.old m3.old }
    ensures { Joined (meet a b) c m1.old result m1.new m3.new }
{
    let seam = m3[SIDE * b + a];
    if seam != 0 {
        return Ok(c);
    }
    if c.n[1] as usize == SIDE {
        return Err(Refusal::NoRoom);
    }
    Ok(add_seam(c, a, b, m1, m3))
}

// The seams along a ring, each from a corner to the one after it.
fn meet_sides(c: Counts, ring: &[u8], m1: &mut [i8], m3: &mut [i8]) -> Result<Counts, Refusal>
    requires { RingSeams c ring.now m1.old m3.old }
    ensures { Joined (meet_sides ring.now) c m1.old result m1.new m3.new }
{
    let mut counts = c;
    let (first, others) = ring.split_at(1);
    let mut tail = first[0] as usize;
    for corner in others {
        let head = *corner as usize;
        counts = meet_side(counts, tail, head, m1, m3)?;
        tail = head;
    }
    meet_side(counts, tail, first[0] as usize, m1, m3)
}

// The seam that the number z names stands in column j, with z's sign.
fn put_side(m2: &mut [i8], j: usize, z: i8)
    requires { SideRoom m2.old j z }
    ensures { m2.new ≡ over (with_entry (pred (nat_abs z)) j (signum z)) m2.old }
{
    if 0 < z {
        set_entry(m2, (z - 1) as usize, j, 1);
    } else {
        set_entry(m2, (-1 - z) as usize, j, -1);
    }
}

// The sides of a ring stand in column j of panels.
fn put_sides(ring: &[u8], m3: &[i8], m2: &mut [i8], j: usize)
    requires { SidesRoom ring.now m3.now m2.old j }
    ensures { m2.new ≡ over (with_sides ring.now (entries m3.now) j) m2.old }
{
    let (first, others) = ring.split_at(1);
    let mut tail = first[0] as usize;
    for corner in others {
        let head = *corner as usize;
        put_side(m2, j, m3[SIDE * head + tail]);
        tail = head;
    }
    put_side(m2, j, m3[SIDE * first[0] as usize + tail]);
}

// A ring is sewn on whose corners are corners of the pattern.
pub(crate) fn sew_ring(
    c: Counts,
    ring: &[u8],
    m1: &mut [i8],
    m2: &mut [i8],
    m3: &mut [i8],
) -> Result<Counts, Refusal>
    requires { RingDrawn c ring.now m1.old m2.old m3.old }
    ensures { Stands (sew_ring ring.now (drawn c m1.old m2.old)) result m1.new m2.new m3.new }
{
    if !is_ring(ring) {
        return Err(Refusal::NotClosed);
    }
    let counts = meet_sides(c, ring, m1, m3)?;
    put_sides(ring, m3, m2, counts.n[2] as usize);
    Ok(counts.grown(2))
}
