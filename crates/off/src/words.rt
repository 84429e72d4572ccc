// The words of an OFF text. Each is read at the front of a text, and what it leaves is the text after it.
ghost use Rattle.std.specs.Prelude.{◌≡◌, ◌≤◌, pos, length};
ghost use Rattle.std.specs.List.{prefix_len};
ghost use Rattle.off.specs.Words.{is_blank, skipped, is_digit, word_ends, number_here, natural, limited, coordinate, keyword};
ghost use Rattle.off.specs.Reading.{found_of, keyword_found};

// How far from 0 a coordinate may be.
pub(crate) const FARTHEST: u32 = 1_048_576;

// Whether a byte separates words: blank, tab, CR or LF.
#[tactic(auto, unfolding(crate::specs::Words::is_blank))]
fn is_blank(b: u8) -> bool
    ensures { result ≡ is_blank b }
{
    matches!(b, b' ' | b'\t' | b'\r' | b'\n')
}

// How many blanks are at the front of a text.
fn blanks(s: &[u8]) -> usize
    ensures within { result ≤ length s.now }
    ensures are { result ≡ prefix_len is_blank s.now }
{
    s.iter().take_while(|b| is_blank(**b)).count()
}

// The text from its first byte that is no blank.
pub(crate) fn skip_blanks(s: &[u8]) -> &[u8]
    ensures { result.now ≡ skipped s.now }
{
    &s[blanks(s)..]
}

// Whether a word ends at the front of a text.
#[tactic(auto, unfolding(crate::specs::Words::word_ends))]
fn word_ends(s: &[u8]) -> bool
    ensures { result ≡ word_ends s.now }
{
    match s {
        [] => true,
        [b, ..] => is_blank(*b),
    }
}

// Whether a byte is a digit.
#[tactic(auto, unfolding(crate::specs::Words::is_digit))]
fn is_digit(b: u8) -> bool
    ensures { result ≡ is_digit b }
{
    matches!(b, b'0'..=b'9')
}

// The number whose digits begin at the front. No digit after the eighth is looked at.
fn number_here(s: &[u8]) -> Option<(u32, &[u8])>
    ensures { found_of result ≡ number_here s.now }
{
    let mut n: u32 = 0;
    let mut count = 0;
    for b in s {
        if !is_digit(*b) {
            break;
        }
        if count == 7 {
            return None;
        }
        n = 10 * n + u32::from(*b - b'0');
        count += 1;
    }
    let rest = &s[count..];
    if count < 1 || !word_ends(rest) {
        return None;
    }
    Some((n, rest))
}

// The number after blanks.
#[tactic(auto, unfolding(crate::specs::Words::natural))]
pub(crate) fn natural(s: &[u8]) -> Option<(u32, &[u8])>
    ensures { found_of result ≡ natural s.now }
{
    number_here(skip_blanks(s))
}

// A number as a coordinate that is not negative.
fn limited(s: &[u8]) -> Option<(i32, &[u8])>
    ensures { found_of result ≡ limited pos (number_here s.now) }
{
    let (n, rest) = number_here(s)?;
    if FARTHEST < n {
        return None;
    }
    Some((n as i32, rest))
}

// The coordinate after blanks.
pub(crate) fn coordinate(s: &[u8]) -> Option<(i32, &[u8])>
    ensures { found_of result ≡ coordinate s.now }
{
    let here = skip_blanks(s);
    let Some(after) = here.strip_prefix(b"-") else {
        return limited(here);
    };
    let (z, rest) = limited(after)?;
    Some((-z, rest))
}

// The text after the keyword.
pub(crate) fn keyword(s: &[u8]) -> Option<&[u8]>
    ensures { keyword_found result ≡ keyword s.now }
{
    let rest = skip_blanks(s).strip_prefix(b"OFF")?;
    if !word_ends(rest) {
        return None;
    }
    Some(rest)
}
