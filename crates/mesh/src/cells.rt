// Reading the cells of a section, each as make reads and judges it.
ghost use Rattle.maths.specs.Repeat.{repeat};
ghost use Rattle.rules.specs.Mesh.{read_cell, read_section};
ghost use Rattle.rules.specs.Lending.{lent_by, SameLoans};
ghost use Rattle.mesh.specs.Reading.{Readable, reached, PartRead};

use form::fields::byte_form;
use form::operators::make_form;
use maths::SIDE;
use operators::make::make;
use rules::pattern::Pattern;
use rules::refusals::Stop;

// The cell of dimension k that stands at a place, and the place after it.
fn read_cell(p: &mut Pattern, k: u8, s: &[u8], at: usize) -> Result<usize, Stop>
    requires { Readable k (lent_by p.old) }
    ensures does { PartRead (read_cell s.now k (reached (lent_by p.old) at)) result (lent_by p.new) }
    ensures same { SameLoans p.old p.new }
{
    let (_, next) = make_form(s, k, at)?;
    make(p, k, s, at)?;
    Ok(next)
}

// The n cells of dimension k from a place on, and the place after them.
fn read_cells(p: &mut Pattern, k: u8, n: usize, s: &[u8], at: usize) -> Result<usize, Stop>
    requires { Readable k (lent_by p.old) }
    ensures does { PartRead (λ go. repeat (read_cell s.now k) go n (reached (lent_by p.old) at)) result (lent_by p.new) }
    ensures same { SameLoans p.old p.new }
{
    let mut place = at;
    for _ in 0..n {
        place = read_cell(p, k, s, place)?;
    }
    Ok(place)
}

// The section at a place, a count and that many cells of dimension k, and the place after it.
pub(crate) fn read_section(p: &mut Pattern, k: u8, s: &[u8], at: usize) -> Result<usize, Stop>
    requires { Readable k (lent_by p.old) }
    ensures does { PartRead (read_section s.now k (reached (lent_by p.old) at)) result (lent_by p.new) }
    ensures same { SameLoans p.old p.new }
{
    let n = byte_form(s, at, 0, SIDE)?;
    read_cells(p, k, n, s, at + 1)
}
