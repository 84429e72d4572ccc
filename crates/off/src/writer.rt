// Exporting: what the text has is tested and its length is found first, and then every byte goes to its place.
ghost use Rattle.rules.specs.Lending.{seen_by};
ghost use Rattle.std.specs.Prelude.{◌≡◌, not, leb, nat_abs, length};
ghost use Rattle.std.specs.Bool.{then_some};
ghost use Rattle.maths.specs.Tests.{is_zero, all};
ghost use Rattle.maths.specs.Tables.{entries};
ghost use Rattle.grid.specs.Grid.{Columns};
ghost use Rattle.off.specs.Words.{farthest};
ghost use Rattle.off.specs.Answers.{exported_told};
ghost use Rattle.off.specs.Exporting.{coordinates_near};
ghost use Rattle.off.specs.Calls.{export_good, export_call};
ghost use Rattle.off.specs.Lying.{drawn};
ghost use Rattle.off.specs.Writing.{NearRoom, Measurable, plain_by, text_by, Layers};

use crate::ends::{Ends, all_alone, take_ends};
use crate::lengths::{corners_length, head_length};
use crate::places::put_text;
use crate::reader::COORDINATES;
use crate::walks::rings_length;
use crate::words::FARTHEST;
use good::refusal_of_pattern;
use grid::tests::row_zero;
use maths::SIDE;
use rules::counts::Counts;
use rules::pattern::View;
use rules::refusals::Refusal;

// Whether z is in range.
fn is_near(z: i32) -> bool
    ensures { result ≡ leb (nat_abs z) farthest }
{
    z.unsigned_abs() <= FARTHEST
}

// Whether the coordinates of n corners are in range.
fn are_near(list: &[i32], n: usize) -> bool
    requires { NearRoom list.now n }
    ensures { result ≡ coordinates_near n list.now }
{
    list[..3 * n].iter().all(|&z| is_near(z))
}

// Whether each of n seams is in some panel.
fn all_sewn(m2: &[i8], n: usize) -> bool
    requires { Columns m2.now n }
    ensures { result ≡ all n (λ i. not (all 96 (λ j. is_zero (entries m2.now i j)))) }
{
    (0..n).all(|i| !row_zero(m2, i))
}

// How long the text of a pattern is, where it has one: no two seams have the same two ends, and every panel is one ring.
fn text_length(c: Counts, m2: &[i8], list: &[i32], ends: &[Ends]) -> Option<usize>
    requires { Measurable c m2.now list.now ends.now }
    ensures { result ≡ then_some (plain_by c m2.now ends.now) (length (text_by c m2.now list.now ends.now)) }
{
    let n = c.n;
    if n[3] != 0 || !all_sewn(m2, n[1] as usize) || !all_alone(ends) {
        return None;
    }
    let rings = rings_length(m2, n[2] as usize, ends)?;
    Some(head_length(n[0], n[2], n[1]) + corners_length(list, n[0] as usize) + rings)
}

// A pattern that was found good is written to the first bytes of the buffer, or refused by 18, 19 or 15; how many bytes were written.
fn export_good(p: View, list: &[i32], out: &mut [u8]) -> Result<usize, Refusal>
    requires { Layers p.counts p.m1.now p.m2.now list.now }
    ensures { record { answer = exported_told result; out = out.new } ≡ export_good (drawn p.entry.counts p.entry.m1.now p.entry.m2.now) list.now out.old }
{
    let n = p.counts.n;
    if !are_near(list, n[0] as usize) {
        return Err(Refusal::WrongOff);
    }
    let mut space = [Ends { tail: 0, head: 0 }; SIDE];
    let ends = &mut space[..n[1] as usize];
    take_ends(p.m1, ends);
    let length = text_length(p.counts, p.m2, list, ends).ok_or(Refusal::NotPlain)?;
    if out.len() < length {
        return Err(Refusal::ShortOutput);
    }
    let written = put_text(p.counts, p.m2, list, ends, out);
    Ok(written)
}

// A lent pattern is written as an OFF text to the first bytes of the buffer, or refused by 1, 2, 18, 19 or 15, in this order, and then no byte is
// touched; how many bytes were written.
pub fn export_off(p: View, list: &[i32], out: &mut [u8]) -> Result<usize, Refusal>
    ensures { record { answer = exported_told result; out = out.new } ≡ export_call (seen_by p.entry) list.now out.old }
{
    if list.len() != COORDINATES {
        return Err(Refusal::WrongLength);
    }
    refusal_of_pattern(p)?;
    export_good(p, list, out)
}
