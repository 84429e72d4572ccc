// Writing a mesh: its length is found first, and then every byte goes to its place.
ghost use Rattle.std.specs.Prelude.{◌≡◌, cond, pos, length};
ghost use Rattle.maths.specs.Tests.{eq_z};
ghost use Rattle.maths.specs.Tables.{column};
ghost use Rattle.maths.specs.Buffers.{Put, Fits};
ghost use Rattle.rules.specs.Complex.{complex};
ghost use Rattle.rules.specs.Mesh.{pair, each_face, write_cell, write_mesh, one_face};
ghost use Rattle.rules.specs.Calls.{write_call};
ghost use Rattle.rules.specs.Told.{written_told};
ghost use Rattle.rules.specs.Lending.{seen_by};
ghost use Rattle.rules.specs.Good.{Held};
ghost use Rattle.grid.specs.Grid.{Line, Columns};
ghost use Rattle.mesh.specs.Writing.{seam_text, list_text, section_text, ColumnFits, ColumnsFit, MeshFits};

use buffer::{put, put_two};
use good::refusal_of_pattern;
use grid::tests::{column_count, column_last};
use maths::SIDE;
use rules::pattern::View;
use rules::refusals::Refusal;

// How long cell j of dimension k is.
#[tactic(auto, using(crate::proofs::CellTexts::faces_length), unfolding(rules::specs::Mesh::write_cell))]
fn cell_length(m: &[i8], k: usize, j: usize) -> usize
    requires { Line m.now j }
    ensures { result ≡ length (write_cell k (column m.now j)) }
{
    if k == 1 {
        2
    } else {
        1 + 2 * column_count(m, j)
    }
}

// How long the section of the n cells of dimension k is.
fn section_length(m: &[i8], k: usize, n: u8) -> usize
    requires { Columns m.now n }
    ensures { result ≡ length (section_text k m.now n) }
{
    1 + (0..n as usize).map(|j| cell_length(m, k, j)).sum::<usize>()
}

// How long the mesh is.
fn mesh_length(p: View) -> usize
    requires { Held (seen_by p) }
    ensures { result ≡ length (write_mesh (complex (seen_by p.entry))) }
{
    let n = p.counts.n;
    let seams = section_length(p.m1, 1, n[1]);
    let panels = section_length(p.m2, 2, n[2]);
    let blocks = section_length(p.m3, 3, n[3]);
    1 + seams + panels + blocks
}

// How a sign is written: 1 for plus and 2 for minus.
#[tactic(auto, unfolding(maths::specs::Tests::eq_z))]
fn sign_byte(z: i8) -> u8
    ensures { result ≡ cond (eq_z z (pos 1)) 1 2 }
{
    if z == 1 { 1 } else { 2 }
}

// Face i with the entry z, nothing where z is 0, at a place, and the place after it.
#[tactic(auto, using(maths::proofs::Buffers::no_piece), unfolding(rules::specs::Mesh::one_face, maths::specs::Tests::is_zero, maths::specs::Tests::eq_z))]
fn put_pair(out: &mut [u8], at: usize, i: u8, z: i8) -> usize
    requires { Fits out.old at (one_face pair i z) }
    ensures { Put out.old at (one_face pair i z) result out.new }
{
    if z == 0 {
        return at;
    }
    put_two(out, at, i, sign_byte(z))
}

// The faces of cell j at a place, rising, and the place after them.
fn put_pairs(m: &[i8], j: usize, out: &mut [u8], at: usize) -> usize
    requires { ColumnFits m.now j out.old at (each_face pair (column m.now j)) }
    ensures { Put out.old at (each_face pair (column m.now j)) result out.new }
{
    let mut next = at;
    for (i, z) in m[SIDE * j..SIDE * (j + 1)].iter().enumerate() {
        next = put_pair(out, next, i as u8, *z);
    }
    next
}

// The tail and the head of seam j at a place, and the place after them.
fn put_seam(m: &[i8], j: usize, out: &mut [u8], at: usize) -> usize
    requires { ColumnFits m.now j out.old at (seam_text (column m.now j)) }
    ensures { Put out.old at (seam_text (column m.now j)) result out.new }
{
    let tail = column_last(m, j, -1) as u8;
    let head = column_last(m, j, 1) as u8;
    put_two(out, at, tail, head)
}

// The face count of cell j and its faces at a place, and the place after them. The faces are put first, and tell the count.
fn put_list(m: &[i8], j: usize, out: &mut [u8], at: usize) -> usize
    requires { ColumnFits m.now j out.old at (list_text (column m.now j)) }
    ensures { Put out.old at (list_text (column m.now j)) result out.new }
{
    let next = put_pairs(m, j, out, at + 1);
    out[at] = ((next - at) / 2) as u8;
    next
}

// Cell j of dimension k at a place, and the place after it.
#[tactic(auto, unfolding(rules::specs::Mesh::write_cell))]
fn put_cell(m: &[i8], k: usize, j: usize, out: &mut [u8], at: usize) -> usize
    requires { ColumnFits m.now j out.old at (write_cell k (column m.now j)) }
    ensures { Put out.old at (write_cell k (column m.now j)) result out.new }
{
    if k == 1 {
        put_seam(m, j, out, at)
    } else {
        put_list(m, j, out, at)
    }
}

// The section of the n cells of dimension k at a place, and the place after it.
fn put_section(m: &[i8], k: usize, n: u8, out: &mut [u8], at: usize) -> usize
    requires { ColumnsFit m.now n out.old at (section_text k m.now n) }
    ensures { Put out.old at (section_text k m.now n) result out.new }
{
    let mut next = put(out, at, n);
    for j in 0..n as usize {
        next = put_cell(m, k, j, out, next);
    }
    next
}

// The mesh at the front of the buffer, and the place after it.
fn put_mesh(p: View, out: &mut [u8]) -> usize
    requires { MeshFits (seen_by p) out.old }
    ensures { Put out.old 0 (write_mesh (complex (seen_by p.entry))) result out.new }
{
    let n = p.counts.n;
    let seams = put(out, 0, n[0]);
    let panels = put_section(p.m1, 1, n[1], out, seams);
    let blocks = put_section(p.m2, 2, n[2], out, panels);
    put_section(p.m3, 3, n[3], out, blocks)
}

// A lent pattern is written as a mesh to the first bytes of the buffer, or refused by 1, 2 or 15, in this order, and then no byte is touched.
pub fn write_mesh(p: View, out: &mut [u8]) -> Result<usize, Refusal>
    ensures { record { answer = written_told result; out = out.new } ≡ write_call (seen_by p.entry) out.old }
{
    refusal_of_pattern(p)?;
    if out.len() < mesh_length(p) {
        return Err(Refusal::ShortOutput);
    }
    let written = put_mesh(p, out);
    Ok(written)
}
