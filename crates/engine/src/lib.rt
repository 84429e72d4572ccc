// The public calls: reading and writing a mesh, which stand in `mesh`; here one operator and a script; a module each for the Euler number, the
// boundary of a chain and carrying one.
#![tactic(auto)]

ghost use Rattle.std.specs.Prelude.{◌≡◌};
ghost use Rattle.rules.specs.Calls.{apply_call, run_call};
ghost use Rattle.rules.specs.Lending.{lent_by, seen_by, operated_on, script_run, SameLoans};
ghost use Rattle.engine.specs.Running.{MayRun};

use crate::apply::apply;
use crate::script::{run_operators, same_base};
use form::operators::form_of_operator;
use form::script::form_of_script;
use good::refusal_of_pattern;
pub use mesh::reader::read_mesh;
pub use mesh::writer::write_mesh;
use rules::answers::ScriptRun;
use rules::pattern::{Pattern, View};
use rules::refusals::{Refusal, Stop};

mod apply;
pub mod boundary;
pub mod carry;
mod chains;
pub mod euler;
mod script;

// How many bytes a script may have.
const LONGEST_SCRIPT: usize = 24576;

// One operator, of which s are the bytes, on a lent pattern.
pub fn apply_operator(p: &mut Pattern, s: &[u8]) -> Result<(), Stop>
    ensures does { operated_on result p.new ≡ apply_call (lent_by p.old) s.now }
    ensures same { SameLoans p.old p.new }
{
    refusal_of_pattern(p.view())?;
    let (o, _) = form_of_operator(s)?;
    apply(p, o, s)?;
    Ok(())
}

// How many operators the script s has, if it runs on a lent pattern.
fn operators_to_run(p: View, s: &[u8]) -> Result<usize, Stop>
    ensures { MayRun s.now (seen_by p.entry) result }
{
    if LONGEST_SCRIPT < s.len() {
        return Err(Stop::Meaning(Refusal::WrongLength));
    }
    refusal_of_pattern(p)?;
    let n = form_of_script(s)?;
    if !same_base(p.counts, s) {
        return Err(Stop::Meaning(Refusal::Stale));
    }
    Ok(n)
}

// The script s on a lent pattern, up to the first refusal.
pub fn run_script(p: &mut Pattern, s: &[u8]) -> ScriptRun
    ensures does { script_run result p.new ≡ run_call (lent_by p.old) s.now }
    ensures same { SameLoans p.old p.new }
{
    match operators_to_run(p.view(), s) {
        Ok(n) => run_operators(p, n, s),
        Err(stop) => ScriptRun {
            ran: 0,
            ended: Err(stop),
        },
    }
}
