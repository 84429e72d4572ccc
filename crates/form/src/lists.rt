// Rising lists of numbers, with signs and without.
ghost use Rattle.std.specs.Prelude.{◌≡◌};
ghost use Rattle.rules.specs.Form.{entry_at, entries_at, list_at};

use crate::fields::byte_form;
use maths::SIDE;
use rules::form::Fault;

// The entry at `at`, a number of at least `low` and in a list with signs its sign: the least number that may follow, and the place after it.
#[tactic(auto, using(rules::proofs::Bytes::Fields::byte_says), unfolding(rules::specs::Form::entry_at))]
fn entry_form(signed: bool, s: &[u8], at: usize, low: usize) -> Result<(usize, usize), Fault>
    ensures { result ≡ entry_at signed s.now at low }
{
    let x = byte_form(s, at, low, 255)?;
    let next = at + 1;
    if !signed {
        return Ok((x + 1, next));
    }
    byte_form(s, next, 1, 2)?;
    Ok((x + 1, next + 1))
}

// The place after `n` entries from `at`, whose numbers rise.
#[tactic(auto, using(crate::proofs::Turns::entries))]
fn entries_form(signed: bool, s: &[u8], n: usize, at: usize) -> Result<usize, Fault>
    ensures { result ≡ entries_at signed s.now n at }
{
    let mut place = at;
    let mut low: usize = 0;
    for _ in 0..n {
        (low, place) = entry_form(signed, s, place, low)?;
    }
    Ok(place)
}

// The place after the list at `at`: its count and that many entries.
#[tactic(auto, using(rules::proofs::Bytes::Fields::byte_says), unfolding(rules::specs::Form::list_at))]
pub(crate) fn list_form(signed: bool, s: &[u8], at: usize) -> Result<usize, Fault>
    ensures { result ≡ list_at signed s.now at }
{
    let n = byte_form(s, at, 0, SIDE)?;
    entries_form(signed, s, n, at + 1)
}
