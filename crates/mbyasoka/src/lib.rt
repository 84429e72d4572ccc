// The engine's calls as they are lent to C and Rust: numbers, arrays of four counts, and slices. The crate `mbyasoka_c` exports them.
#![tactic(auto)]

ghost use Rattle.std.specs.Prelude.{◌≡◌, ◌<◌, ◌^◌};
ghost use Rattle.rules.specs.Complex.{counts_of, empty, pattern};
ghost use Rattle.rules.specs.Calls.{read_call, write_call, euler_call, apply_call, run_call, given, boundary_call, carry_call};
ghost use Rattle.rules.specs.Lending.{seen_by, left};
ghost use Rattle.rules.specs.Told.{number_told, stopped_number, stopped_place};
ghost use Rattle.good.specs.Tested.{tested};
ghost use Rattle.off.specs.Calls.{import_call, export_call};
ghost use Rattle.off.specs.Wholes.{imported};
ghost use Rattle.mbyasoka.specs.Places.{pattern_lent, counts_left};

use engine::boundary::boundary;
use engine::carry::carry;
use engine::euler::euler;
use engine::{apply_operator, read_mesh, run_script, write_mesh};
use good::refusal_of_pattern;
use off::reader::import_off;
use off::writer::export_off;
use rules::counts::Counts;
use rules::pattern::{Pattern, View};
use rules::refusals::{ACCEPTED, NO_PLACE, Refusal, Stop};

// The number that a call answers.
fn number_of<T: Drop>(answer: Result<T, Refusal>) -> u8
    ensures { result ≡ number_told answer }
{
    match answer {
        Ok(_) => ACCEPTED,
        Err(refusal) => u8::from(refusal),
    }
}

// The same of a call that takes bytes.
fn stopped_by<T: Drop>(answer: Result<T, Stop>) -> u8
    ensures { result ≡ stopped_number answer }
{
    match answer {
        Ok(_) => ACCEPTED,
        Err(stop) => u8::from(stop),
    }
}

// The place that such a call answers, the largest number where there is none, or none of 32 bits.
fn place_of<T: Drop>(answer: Result<T, Stop>) -> u32
    ensures { stopped_place answer < 2 ^ 32 → result ≡ stopped_place answer }
{
    match answer.err().and_then(Stop::place) {
        Some(at) => u32::try_from(at).unwrap_or(NO_PLACE),
        None => NO_PLACE,
    }
}

// The pattern, to be read.
fn view<'a>(counts: &[u8; 4], m1: &'a [i8], m2: &'a [i8], m3: &'a [i8]) -> View<'a>
    ensures { seen_by result ≡ pattern_lent counts.now m1.now m2.now m3.now }
{
    View {
        counts: Counts { n: *counts },
        m1,
        m2,
        m3,
    }
}

// Whether the pattern is good: 0, or the refusal 1 or 2.
pub fn mbyasoka_check(counts: &[u8; 4], m1: &[i8], m2: &[i8], m3: &[i8]) -> u8
    ensures { result ≡ tested (pattern_lent counts.now m1.now m2.now m3.now) }
{
    number_of(refusal_of_pattern(view(counts, m1, m2, m3)))
}

// Reads a mesh from the front of the bytes: the refusal, the counts, how many bytes it took, and the place of a fault.
pub fn mbyasoka_read_mesh(
    counts: &mut [u8; 4],
    m1: &mut [i8],
    m2: &mut [i8],
    m3: &mut [i8],
    s: &[u8],
    used: &mut usize,
    place: &mut u32,
) -> u8
    ensures { left (record { counts = counts_left counts.new; used = used.new; refusal = result; place = place.new }) m1.new m2.new m3.new ≡ read_call s.now (pattern (counts_of empty) m1.old m2.old m3.old) }
{
    let mut p = Pattern {
        counts: Counts { n: [0; 4] },
        m1,
        m2,
        m3,
    };
    let answer = read_mesh(&mut p, s);
    *counts = p.counts.n;
    *used = answer.unwrap_or(0);
    *place = place_of(answer);
    stopped_by(answer)
}

// Writes the pattern as a mesh: the refusal, and how many bytes were written.
pub fn mbyasoka_write_mesh(
    counts: &[u8; 4],
    m1: &[i8],
    m2: &[i8],
    m3: &[i8],
    out: &mut [u8],
    written: &mut usize,
) -> u8
    ensures { record { answer = record { written = written.new; refusal = result }; out = out.new } ≡ write_call (pattern_lent counts.now m1.now m2.now m3.now) out.old }
{
    let answer = write_mesh(view(counts, m1, m2, m3), out);
    *written = answer.unwrap_or(0);
    number_of(answer)
}

// The Euler number of the pattern: the refusal, and the number.
pub fn mbyasoka_euler(counts: &[u8; 4], m1: &[i8], m2: &[i8], m3: &[i8], number: &mut i16) -> u8
    ensures { record { number = number.new; refusal = result } ≡ euler_call (pattern_lent counts.now m1.now m2.now m3.now) }
{
    let answer = euler(view(counts, m1, m2, m3));
    *number = answer.unwrap_or(0);
    number_of(answer)
}

// One operator, of which s are the bytes, on the pattern: the refusal, the counts after it, and the place of a fault.
pub fn mbyasoka_apply_operator(
    counts: &mut [u8; 4],
    m1: &mut [i8],
    m2: &mut [i8],
    m3: &mut [i8],
    s: &[u8],
    place: &mut u32,
) -> u8
    ensures { left (record { counts = counts_left counts.new; refusal = result; place = place.new }) m1.new m2.new m3.new ≡ apply_call (pattern_lent counts.old m1.old m2.old m3.old) s.now }
{
    let mut p = Pattern {
        counts: Counts { n: *counts },
        m1,
        m2,
        m3,
    };
    let answer = apply_operator(&mut p, s);
    *counts = p.counts.n;
    *place = place_of(answer);
    stopped_by(answer)
}

// The script s on the pattern, up to the first refusal: that refusal, the counts after it, how many operators were accepted, and
// the place of a fault.
pub fn mbyasoka_run_script(
    counts: &mut [u8; 4],
    m1: &mut [i8],
    m2: &mut [i8],
    m3: &mut [i8],
    s: &[u8],
    ran: &mut u16,
    place: &mut u32,
) -> u8
    ensures { left (record { counts = counts_left counts.new; ran = ran.new; refusal = result; place = place.new }) m1.new m2.new m3.new ≡ run_call (pattern_lent counts.old m1.old m2.old m3.old) s.now }
{
    let mut p = Pattern {
        counts: Counts { n: *counts },
        m1,
        m2,
        m3,
    };
    let run = run_script(&mut p, s);
    *counts = p.counts.n;
    *ran = run.ran;
    *place = place_of(run.ended);
    stopped_by(run.ended)
}

// The boundary of a chain of cells of dimension d: the refusal, and the chain of their faces.
pub fn mbyasoka_boundary(
    counts: &[u8; 4],
    m1: &[i8],
    m2: &[i8],
    m3: &[i8],
    d: u8,
    chain: &[i32],
    out: &mut [i32],
) -> u8
    ensures { given result out.new ≡ boundary_call (pattern_lent counts.now m1.now m2.now m3.now) d chain.now out.old }
{
    number_of(boundary(view(counts, m1, m2, m3), d, chain, out))
}

// The chain carried through one operator, of which s are the bytes; the pattern stays as it is. The refusal, and the place of a fault.
pub fn mbyasoka_carry(
    counts: &[u8; 4],
    m1: &[i8],
    m2: &[i8],
    m3: &[i8],
    s: &[u8],
    d: u8,
    chain: &[i32],
    out: &mut [i32],
    place: &mut u32,
) -> u8
    ensures { record { refusal = result; place = place.new; out = out.new } ≡ carry_call (pattern_lent counts.now m1.now m2.now m3.now) s.now d chain.now out.old }
{
    let answer = carry(view(counts, m1, m2, m3), s, d, chain, out);
    *place = place_of(answer);
    stopped_by(answer)
}

// Imports a plain OFF text: the refusal, the counts, and the coordinates of the corners in the list.
pub fn mbyasoka_import_off(
    counts: &mut [u8; 4],
    m1: &mut [i8],
    m2: &mut [i8],
    m3: &mut [i8],
    coordinates: &mut [i32],
    s: &[u8],
) -> u8
    ensures { imported (record { counts = counts_left counts.new; refusal = result }) m1.new m2.new m3.new coordinates.new ≡ import_call s.now (pattern (counts_of empty) m1.old m2.old m3.old) coordinates.old }
{
    let mut p = Pattern {
        counts: Counts { n: [0; 4] },
        m1,
        m2,
        m3,
    };
    let answer = import_off(&mut p, s, coordinates);
    *counts = p.counts.n;
    number_of(answer)
}

// Exports the pattern as an OFF text: the refusal, and how many bytes were written.
pub fn mbyasoka_export_off(
    counts: &[u8; 4],
    m1: &[i8],
    m2: &[i8],
    m3: &[i8],
    coordinates: &[i32],
    out: &mut [u8],
    written: &mut usize,
) -> u8
    ensures { record { answer = record { written = written.new; refusal = result }; out = out.new } ≡ export_call (pattern_lent counts.now m1.now m2.now m3.now) coordinates.now out.old }
{
    let answer = export_off(view(counts, m1, m2, m3), coordinates, out);
    *written = answer.unwrap_or(0);
    number_of(answer)
}
