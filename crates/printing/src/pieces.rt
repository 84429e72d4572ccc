// The pieces of the printed result, each put at the front of a buffer. The answer is how long the piece is.
ghost use Rattle.std.specs.Prelude.{◌≡◌, ◌<◌, ◌^◌};
ghost use Rattle.maths.specs.Buffers.{Put};
ghost use Rattle.rules.specs.Counts.{count_of};
ghost use Rattle.rules.specs.Told.{stopped_number, stopped_place};
ghost use Rattle.listing.specs.Pieces.{LinesRoom};
ghost use Rattle.printing.specs.Input.{run_told, head_text, letter_of, cells_text, HeadRoom};

use crate::run::InputRun;
use listing::lines::line_mesh;
use listing::pieces::{put_cells, put_run};
use rules::counts::Counts;
use rules::pattern::View;
use rules::refusals::{ACCEPTED, NO_PLACE, Stop};

// The number of what stopped a call, if anything did.
fn number_of(ended: Result<(), Stop>) -> u8
    ensures { result ≡ stopped_number ended }
{
    match ended {
        Ok(()) => ACCEPTED,
        Err(stop) => u8::from(stop),
    }
}

// The place of it, the largest number where there is none.
fn place_of(ended: Result<(), Stop>) -> u32
    requires { stopped_place ended < 2 ^ 32 }
    ensures { result ≡ stopped_place ended }
{
    match ended.err().and_then(Stop::place) {
        Some(at) => at as u32,
        None => NO_PLACE,
    }
}

// The refusal of a mesh, or else all that comes before the panels.
#[tactic(auto, using(crate::proofs::Running::stop_not_0), unfolding(crate::specs::Input::head_text))]
pub(crate) fn put_head(out: &mut [u8], run: Result<InputRun, Stop>, p: View) -> usize
    requires { HeadRoom (run_told run p.counts) p.m1.now out.old }
    ensures { Put out.old 0 (head_text (run_told run p.entry.counts) p.entry.m1.now) result out.new }
{
    match run {
        Err(stop) => line_mesh(out, 0, u8::from(stop), place_of(Err(stop))),
        Ok(InputRun { script, euler }) => {
            let refusal = number_of(script.ended);
            let place = place_of(script.ended);
            put_run(out, script.ran, refusal, place, p.counts, euler, p.m1)
        }
    }
}

// The letter of a panel, where k is 2, or of a block.
fn letter_of(k: usize) -> u8
    ensures { result ≡ letter_of k }
{
    if k == 2 { b'f' } else { b's' }
}

// The panels, where k is 2, or the blocks, where it is 3.
pub(crate) fn put_cells_of(out: &mut [u8], c: Counts, k: usize, m: &[i8]) -> usize
    requires dimension { k < 4 }
    requires room { LinesRoom 400 m.now (count_of c k) out.old 0 }
    ensures { Put out.old 0 (cells_text k c m.now) result out.new }
{
    put_cells(out, letter_of(k), c.n[k], m)
}
