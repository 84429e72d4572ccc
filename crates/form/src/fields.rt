// Fields of one byte and of two.
ghost use Rattle.std.specs.Prelude.{◌≡◌};
ghost use Rattle.rules.specs.Form.{byte_at, word_at};

use rules::form::Fault;

// The byte at `at`, to be from `low` to `high`.
#[tactic(auto, unfolding(rules::specs::Form::byte_at))]
pub fn byte_form(s: &[u8], at: usize, low: usize, high: usize) -> Result<usize, Fault>
    ensures { result ≡ byte_at s.now at low high }
{
    let Some(&byte) = s.get(at) else {
        return Err(Fault::Ends(s.len()));
    };
    let x = usize::from(byte);
    if !(low..=high).contains(&x) {
        return Err(Fault::Wrong(at));
    }
    Ok(x)
}

// The two bytes at `at`, low first, to be at most `high`.
#[tactic(auto, unfolding(rules::specs::Form::word_at))]
pub(crate) fn word_form(s: &[u8], at: usize, high: usize) -> Result<usize, Fault>
    ensures { result ≡ word_at s.now at high }
{
    let Some([first, second, ..]) = s.get(at..) else {
        return Err(Fault::Ends(s.len()));
    };
    let x = usize::from(u16::from_le_bytes([*first, *second]));
    if high < x {
        return Err(Fault::Wrong(at));
    }
    Ok(x)
}
