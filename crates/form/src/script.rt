// A whole script.
ghost use Rattle.std.specs.Prelude.{◌≡◌};
ghost use Rattle.rules.specs.Form.{counts_at, operators_at, script_form};

use crate::fields::{byte_form, word_form};
use crate::operators::read_operator;
use maths::SIDE;
use rules::form::Fault;

// The place after the four base counts, which follow the first byte.
#[tactic(auto, using(crate::proofs::Turns::counts))]
fn counts_form(s: &[u8]) -> Result<usize, Fault>
    ensures { result ≡ counts_at s.now 4 1 }
{
    for at in 1..5 {
        byte_form(s, at, 0, SIDE)?;
    }
    Ok(5)
}

// `count`, where that many operators stand from place 7 on and no byte after them.
#[tactic(auto, using(crate::proofs::Turns::operators))]
fn operators_form(s: &[u8], count: usize) -> Result<usize, Fault>
    ensures { result ≡ operators_at s.now count count 7 }
{
    let mut at: usize = 7;
    for _ in 0..count {
        (_, at) = read_operator(s, at)?;
    }
    if at < s.len() {
        return Err(Fault::Left(at));
    }
    Ok(count)
}

// How many operators a script has.
#[tactic(auto, unfolding(rules::specs::Form::script_form))]
pub fn form_of_script(s: &[u8]) -> Result<usize, Fault>
    ensures { result ≡ script_form s.now }
{
    byte_form(s, 0, 4, 4)?;
    counts_form(s)?;
    let count = word_form(s, 5, 1024)?;
    operators_form(s, count)
}
