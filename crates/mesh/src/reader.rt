// Reading a mesh: the corner count, and the sections of seams, panels and blocks.
ghost use Rattle.std.specs.Prelude.{◌≡◌};
ghost use Rattle.rules.specs.Complex.{Sized, empty, stored};
ghost use Rattle.rules.specs.Calls.{read_call};
ghost use Rattle.rules.specs.Lending.{lent_by, mesh_read, SameLoans};
ghost use Rattle.mesh.specs.Reading.{ReadUpTo};

use crate::cells::read_section;
use form::fields::byte_form;
use good::is_sized;
use grid::changes::clear;
use maths::SIDE;
use rules::counts::Counts;
use rules::pattern::Pattern;
use rules::refusals::{Refusal, Stop};

// The corner count of a mesh is taken into an empty pattern.
fn read_corners(p: &mut Pattern, s: &[u8]) -> Result<usize, Stop>
    requires { lent_by p.old ≡ stored empty }
    ensures does { ReadUpTo s.now 1 result (lent_by p.new) }
    ensures same { SameLoans p.old p.new }
{
    let n = byte_form(s, 0, 0, SIDE)?;
    p.counts = Counts {
        n: [n as u8, 0, 0, 0],
    };
    Ok(1)
}

// All of the mesh, into an empty pattern.
fn read_sections(p: &mut Pattern, s: &[u8]) -> Result<usize, Stop>
    requires { lent_by p.old ≡ stored empty }
    ensures does { ReadUpTo s.now 4 result (lent_by p.new) }
    ensures same { SameLoans p.old p.new }
{
    let mut next = read_corners(p, s)?;
    for k in 1..4 {
        next = read_section(p, k, s, next)?;
    }
    Ok(next)
}

// The pattern becomes empty.
fn clear_all(p: &mut Pattern)
    requires { Sized (lent_by p.old) }
    ensures does { lent_by p.new ≡ stored empty }
    ensures same { SameLoans p.old p.new }
{
    p.counts = Counts { n: [0; 4] };
    clear(p.m1);
    clear(p.m2);
    clear(p.m3);
}

// Reads a mesh into a pattern, and answers how many bytes it took. Every refusal leaves the counts 0, and but that of their lengths the matrices zero.
pub fn read_mesh(p: &mut Pattern, s: &[u8]) -> Result<usize, Stop>
    ensures does { mesh_read result p.new ≡ read_call s.now (lent_by p.old) }
    ensures same { SameLoans p.old p.new }
{
    if !is_sized(p.view()) {
        p.counts = Counts { n: [0; 4] };
        return Err(Stop::Meaning(Refusal::WrongLength));
    }
    clear_all(p);
    match read_sections(p, s) {
        Ok(used) => Ok(used),
        Err(stop) => {
            clear_all(p);
            Err(stop)
        }
    }
}
