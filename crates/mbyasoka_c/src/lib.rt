// The engine for C and Rust, a thin layer over the crate `mbyasoka`: numbers, arrays of four counts, and slices, each a pointer and then a length.
#![tactic(auto)]

ghost use Rattle.std.specs.Prelude.{◌≡◌};
ghost use Rattle.rules.specs.Complex.{counts_of, empty, pattern};
ghost use Rattle.rules.specs.Calls.{read_call, write_call, euler_call, apply_call, run_call, given, boundary_call, carry_call};
ghost use Rattle.rules.specs.Lending.{left};
ghost use Rattle.good.specs.Tested.{tested};
ghost use Rattle.off.specs.Calls.{import_call, export_call};
ghost use Rattle.off.specs.Wholes.{imported};
ghost use Rattle.mbyasoka.specs.Places.{pattern_lent, counts_left};

// Whether the pattern is good: 0, or the refusal 1 or 2.
#[unsafe(no_mangle)]
pub extern "C" fn mbyasoka_check(counts: &[u8; 4], m1: &[i8], m2: &[i8], m3: &[i8]) -> u8
    ensures { result ≡ tested (pattern_lent counts.now m1.now m2.now m3.now) }
{
    mbyasoka::mbyasoka_check(counts, m1, m2, m3)
}

// Reads a mesh from the front of the bytes: the refusal, the counts, how many bytes it took, and the place of a fault.
#[unsafe(no_mangle)]
pub extern "C" fn mbyasoka_read_mesh(
    counts: &mut [u8; 4],
    m1: &mut [i8],
    m2: &mut [i8],
    m3: &mut [i8],
    s: &[u8],
    used: &mut usize,
    place: &mut u32,
) -> u8
    ensures { left (record { counts = counts_left counts.new; used = used.new; refusal = result; place = place.new }) m1.new m2.new m3.new ≡ read_call s.now (pattern (counts_of empty) m1.old m2.old m3.old) }
{
    mbyasoka::mbyasoka_read_mesh(counts, m1, m2, m3, s, used, place)
}

// Writes the pattern as a mesh: the refusal, and how many bytes were written.
#[unsafe(no_mangle)]
pub extern "C" fn mbyasoka_write_mesh(
    counts: &[u8; 4],
    m1: &[i8],
    m2: &[i8],
    m3: &[i8],
    out: &mut [u8],
    written: &mut usize,
) -> u8
    ensures { record { answer = record { written = written.new; refusal = result }; out = out.new } ≡ write_call (pattern_lent counts.now m1.now m2.now m3.now) out.old }
{
    mbyasoka::mbyasoka_write_mesh(counts, m1, m2, m3, out, written)
}

// The Euler number of the pattern: the refusal, and the number.
#[unsafe(no_mangle)]
pub extern "C" fn mbyasoka_euler(
    counts: &[u8; 4],
    m1: &[i8],
    m2: &[i8],
    m3: &[i8],
    number: &mut i16,
) -> u8
    ensures { record { number = number.new; refusal = result } ≡ euler_call (pattern_lent counts.now m1.now m2.now m3.now) }
{
    mbyasoka::mbyasoka_euler(counts, m1, m2, m3, number)
}

// One operator, of which s are the bytes, on the pattern: the refusal, the counts after it, and the place of a fault.
#[unsafe(no_mangle)]
pub extern "C" fn mbyasoka_apply_operator(
    counts: &mut [u8; 4],
    m1: &mut [i8],
    m2: &mut [i8],
    m3: &mut [i8],
    s: &[u8],
    place: &mut u32,
) -> u8
    ensures { left (record { counts = counts_left counts.new; refusal = result; place = place.new }) m1.new m2.new m3.new ≡ apply_call (pattern_lent counts.old m1.old m2.old m3.old) s.now }
{
    mbyasoka::mbyasoka_apply_operator(counts, m1, m2, m3, s, place)
}

// The script s on the pattern, up to the first refusal: that refusal, the counts after it, how many operators were accepted, and
// the place of a fault.
#[unsafe(no_mangle)]
pub extern "C" fn mbyasoka_run_script(
    counts: &mut [u8; 4],
    m1: &mut [i8],
    m2: &mut [i8],
    m3: &mut [i8],
    s: &[u8],
    ran: &mut u16,
    place: &mut u32,
) -> u8
    ensures { left (record { counts = counts_left counts.new; ran = ran.new; refusal = result; place = place.new }) m1.new m2.new m3.new ≡ run_call (pattern_lent counts.old m1.old m2.old m3.old) s.now }
{
    mbyasoka::mbyasoka_run_script(counts, m1, m2, m3, s, ran, place)
}

// The boundary of a chain of cells of dimension d: the refusal, and the chain of their faces.
#[unsafe(no_mangle)]
pub extern "C" fn mbyasoka_boundary(
    counts: &[u8; 4],
    m1: &[i8],
    m2: &[i8],
    m3: &[i8],
    d: u8,
    chain: &[i32],
    out: &mut [i32],
) -> u8
    ensures { given result out.new ≡ boundary_call (pattern_lent counts.now m1.now m2.now m3.now) d chain.now out.old }
{
    mbyasoka::mbyasoka_boundary(counts, m1, m2, m3, d, chain, out)
}

// The chain carried through one operator, of which s are the bytes; the pattern stays as it is. The refusal, and the place of a fault.
#[unsafe(no_mangle)]
pub extern "C" fn mbyasoka_carry(
    counts: &[u8; 4],
    m1: &[i8],
    m2: &[i8],
    m3: &[i8],
    s: &[u8],
    d: u8,
    chain: &[i32],
    out: &mut [i32],
    place: &mut u32,
) -> u8
    ensures { record { refusal = result; place = place.new; out = out.new } ≡ carry_call (pattern_lent counts.now m1.now m2.now m3.now) s.now d chain.now out.old }
{
    mbyasoka::mbyasoka_carry(counts, m1, m2, m3, s, d, chain, out, place)
}

// Imports a plain OFF text: the refusal, the counts, and the coordinates of the corners in the list.
#[unsafe(no_mangle)]
pub extern "C" fn mbyasoka_import_off(
    counts: &mut [u8; 4],
    m1: &mut [i8],
    m2: &mut [i8],
    m3: &mut [i8],
    coordinates: &mut [i32],
    s: &[u8],
) -> u8
    ensures { imported (record { counts = counts_left counts.new; refusal = result }) m1.new m2.new m3.new coordinates.new ≡ import_call s.now (pattern (counts_of empty) m1.old m2.old m3.old) coordinates.old }
{
    mbyasoka::mbyasoka_import_off(counts, m1, m2, m3, coordinates, s)
}

// Exports the pattern as an OFF text: the refusal, and how many bytes were written.
#[unsafe(no_mangle)]
pub extern "C" fn mbyasoka_export_off(
    counts: &[u8; 4],
    m1: &[i8],
    m2: &[i8],
    m3: &[i8],
    coordinates: &[i32],
    out: &mut [u8],
    written: &mut usize,
) -> u8
    ensures { record { answer = record { written = written.new; refusal = result }; out = out.new } ≡ export_call (pattern_lent counts.now m1.now m2.now m3.now) coordinates.now out.old }
{
    mbyasoka::mbyasoka_export_off(counts, m1, m2, m3, coordinates, out, written)
}
