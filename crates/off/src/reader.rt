// Importing: the text is read once, from the front to its end.
ghost use Rattle.std.specs.Prelude.{◌≡◌, pos, length};
ghost use Rattle.maths.specs.Tables.{table};
ghost use Rattle.rules.specs.Lending.{SameLoans};
ghost use Rattle.off.specs.Plain.{read_off};
ghost use Rattle.off.specs.Sewing.{sewn};
ghost use Rattle.off.specs.Calls.{import_call};
ghost use Rattle.off.specs.Lying.{drawn, PanelsRoom};
ghost use Rattle.off.specs.Wholes.{panels_then, body_then, Blanks, BodyRoom, EndTaken, CountsTaken, TextTaken, uncounted, import_told};

use crate::lines::{cell_count, is_over, read_coordinates};
use crate::panels::read_panels;
use crate::words::{keyword, natural};
use good::is_sized;
use grid::changes::clear;
use rules::counts::Counts;
use rules::pattern::Pattern;
use rules::refusals::Refusal;

// How long the list of coordinates is: x, y and z of 96 corners.
pub(crate) const COORDINATES: usize = 288;

// All 288 become 0.
fn clear_coordinates(list: &mut [i32])
    requires { length list.old ≡ 288 }
    ensures { list.new ≡ table 288 (λ i. pos 0) }
{
    list.fill(0);
}

// The panels, and nothing after them.
fn read_end(
    c: Counts,
    s: &[u8],
    panels: usize,
    m1: &mut [i8],
    m2: &mut [i8],
    m3: &mut [i8],
) -> Result<Counts, Refusal>
    requires { PanelsRoom c panels m1.old m2.old m3.old }
    ensures { EndTaken (panels_then panels s.now) (sewn (drawn c m1.old m2.old)) result m1.new m2.new m3.new }
{
    let (sewn, rest) = read_panels(c, s, panels, m1, m2, m3).ok_or(Refusal::WrongOff)?;
    if !is_over(rest) {
        return Err(Refusal::WrongOff);
    }
    sewn
}

// The corners and the panels, after the three counts.
fn read_body(
    s: &[u8],
    corners: u32,
    panels: u32,
    m1: &mut [i8],
    m2: &mut [i8],
    m3: &mut [i8],
    list: &mut [i32],
) -> Result<Counts, Refusal>
    requires { BodyRoom corners panels m1.old m2.old m3.old list.old }
    ensures { TextTaken (body_then corners panels s.now) result m1.new m2.new m3.new list.new }
{
    let n = 3 * corners as usize;
    let rest = read_coordinates(s, &mut list[..n]).ok_or(Refusal::WrongOff)?;
    let counts = Counts {
        n: [corners as u8, 0, 0, 0],
    };
    read_end(counts, rest, panels as usize, m1, m2, m3)
}

// The keyword and the three counts, of which the third is unused: how many corners and panels, and the text after them.
fn read_counts(s: &[u8]) -> Option<(u32, u32, &[u8])>
    ensures { CountsTaken s.now result }
{
    let first = keyword(s)?;
    let (corners, second) = cell_count(first)?;
    let (panels, third) = cell_count(second)?;
    let (_, rest) = natural(third)?;
    Some((corners, panels, rest))
}

// The whole text, into matrices and a list of zeros.
fn read_text(
    s: &[u8],
    m1: &mut [i8],
    m2: &mut [i8],
    m3: &mut [i8],
    list: &mut [i32],
) -> Result<Counts, Refusal>
    requires { Blanks m1.old m2.old m3.old list.old }
    ensures { TextTaken (read_off s.now) result m1.new m2.new m3.new list.new }
{
    let (corners, panels, rest) = read_counts(s).ok_or(Refusal::WrongOff)?;
    read_body(rest, corners, panels, m1, m2, m3, list)
}

// Imports a plain OFF text. Every refusal leaves the counts 0, and but that of the lengths the matrices and coordinates too.
pub fn import_off(p: &mut Pattern, s: &[u8], list: &mut [i32]) -> Result<(), Refusal>
    ensures does { import_told result p.new list.new ≡ import_call s.now (uncounted p.old) list.old }
    ensures same { SameLoans p.old p.new }
{
    p.counts = Counts { n: [0; 4] };
    if !is_sized(p.view()) || list.len() != COORDINATES {
        return Err(Refusal::WrongLength);
    }
    clear(p.m1);
    clear(p.m2);
    clear(p.m3);
    clear_coordinates(list);
    let read = read_text(s, p.m1, p.m2, p.m3, list);
    p.counts = read.unwrap_or(Counts { n: [0; 4] });
    clear(p.m3);
    let answer = read.and(Ok(()));
    if answer.is_err() {
        clear(p.m1);
        clear(p.m2);
        clear_coordinates(list);
    }
    answer
}
