// Going round a panel: from each of its corners along the seam that leaves it.
ghost use Rattle.std.specs.Prelude.{◌≡◌, cond, pos, length, set};
ghost use Rattle.std.specs.Bool.{then_some};
ghost use Rattle.maths.specs.Tests.{eq_z, is_zero, all};
ghost use Rattle.maths.specs.Tables.{table};
ghost use Rattle.off.specs.Exporting.{ring_line};
ghost use Rattle.off.specs.Walking.{byte_of, start_found, StepRoom, NextRoom, next_by, WalkRoom, Walk, PanelRoom, WentRound, PanelsIn, panel_closes, panel_ring, ring_lines};

use crate::ends::Ends;
use crate::lengths::ring_length;
use crate::rings::is_ring;
use grid::tests::column_count;
use maths::SIDE;

// No corner.
const NOWHERE: u8 = 96;

// A seam with the entry z: from its tail to its head with plus, from its head to its tail with minus.
fn set_next(next: &mut [u8], seam: Ends, z: i8)
    requires { StepRoom next.old seam }
    ensures { next.new ≡ cond (is_zero z) next.old (cond (eq_z z (pos 1)) (set next.old seam.tail seam.head) (set next.old seam.head seam.tail)) }
{
    if z == 0 {
        return;
    }
    if z == 1 {
        next[seam.tail as usize] = seam.head;
    } else {
        next[seam.head as usize] = seam.tail;
    }
}

// Where panel j goes from each corner.
fn fill_next(m2: &[i8], j: usize, ends: &[Ends], next: &mut [u8])
    requires { NextRoom m2.now j ends.now next.old }
    ensures { next.new ≡ table 97 (next_by m2.now j ends.now) }
{
    for (&seam, &z) in ends.iter().zip(&m2[SIDE * j..SIDE * j + ends.len()]) {
        set_next(next, seam, z);
    }
}

// The lowest corner from which one goes anywhere.
fn lowest(next: &[u8]) -> Option<usize>
    requires { length next.now ≡ 97 }
    ensures { result ≡ start_found (byte_of next.now) }
{
    next[..SIDE].iter().position(|&to| to < NOWHERE)
}

// The corners on the steps from `start`, and where these end.
fn walk(next: &[u8], start: usize, ring: &mut [u8]) -> usize
    requires { WalkRoom next.now start }
    ensures { Walk next.now start result ring.new }
{
    let mut corner = start;
    for place in ring.iter_mut() {
        *place = corner as u8;
        corner = next[corner] as usize;
    }
    corner
}

// The corners on the steps round panel j from the lowest that it leaves; whether it leaves one, and they lead back.
pub(crate) fn go_round(m2: &[i8], j: usize, ends: &[Ends], ring: &mut [u8]) -> bool
    requires { PanelRoom m2.now j ends.now }
    ensures { WentRound (next_by m2.now j ends.now) result ring.new }
{
    let mut next = [NOWHERE; SIDE + 1];
    fill_next(m2, j, ends, &mut next);
    let Some(start) = lowest(&next) else {
        return false;
    };
    walk(&next, start, ring) == start
}

// How long the line of panel j is, where the panel is one ring.
fn line_length(m2: &[i8], j: usize, ends: &[Ends]) -> Option<usize>
    requires { PanelRoom m2.now j ends.now }
    ensures { result ≡ then_some (panel_closes m2.now ends.now j) (length (ring_line (panel_ring m2.now ends.now j))) }
{
    let mut bytes = [0u8; SIDE];
    let ring = &mut bytes[..column_count(m2, j)];
    if !go_round(m2, j, ends, ring) || !is_ring(ring) {
        return None;
    }
    Some(ring_length(ring))
}

// How long the lines of the panels are, where every panel is one ring.
pub(crate) fn rings_length(m2: &[i8], panels: usize, ends: &[Ends]) -> Option<usize>
    requires { PanelsIn m2.now panels ends.now }
    ensures { result ≡ then_some (all panels (panel_closes m2.now ends.now)) (length (ring_lines m2.now ends.now panels)) }
{
    let mut length = 0;
    for j in 0..panels {
        length += line_length(m2, j, ends)?;
    }
    Some(length)
}
