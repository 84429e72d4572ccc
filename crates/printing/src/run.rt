// What the program makes of its input.
ghost use Rattle.std.specs.Prelude.{◌≡◌};
ghost use Rattle.rules.specs.Complex.{Sized};
ghost use Rattle.rules.specs.Lending.{lent_by, SameLoans};
ghost use Rattle.printing.specs.Input.{run_input, run_left};

use engine::euler::euler;
use engine::{read_mesh, run_script};
use rules::answers::ScriptRun;
use rules::pattern::Pattern;
use rules::refusals::Stop;

// How the script after a mesh ended, and the Euler number that it left.
#[derive(Clone, Copy)]
pub struct InputRun {
    pub script: ScriptRun,
    pub euler: i16,
}

// The mesh at the front of the bytes is read into the pattern, and the script after it is run on it.
pub(crate) fn run_input(p: &mut Pattern, s: &[u8]) -> Result<InputRun, Stop>
    requires { Sized (lent_by p.old) }
    ensures does { run_left result p.new ≡ run_input s.now }
    ensures same { SameLoans p.old p.new }
{
    let used = read_mesh(p, s)?;
    let script = run_script(p, &s[used..]);
    let euler = euler(p.view())?;
    Ok(InputRun { script, euler })
}
