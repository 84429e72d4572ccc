// One operator: its code, and what follows for each kind.
ghost use Rattle.std.specs.Prelude.{◌≡◌, ℕ};
ghost use Rattle.rules.specs.Form.{code_of, make_at, split_at, cell_at, operator_at, lone_operator};
ghost use Rattle.rules.specs.declared.operator.Operator.{Operator};

use crate::fields::byte_form;
use crate::lists::list_form;
use rules::form::{Code, Fault};
use rules::operator::Operator;

// Kind and dimension of a code: its low digit is the dimension.
#[tactic(auto, unfolding(rules::specs::Form::code_of))]
fn code_of(b: usize) -> Option<Code>
    ensures { result ≡ code_of b }
{
    let dim = (b % 16) as u8;
    match b {
        0x10..=0x13 => Some(Code::Make(dim)),
        0x20..=0x23 => Some(Code::Kill(dim)),
        0x31..=0x33 => Some(Code::Split(dim)),
        0x40..=0x42 => Some(Code::Merge(dim)),
        0x51..=0x53 => Some(Code::Flip(dim)),
        _ => None,
    }
}

// What a make of dimension k has at `at`: nothing, tail and head, or a list with signs.
#[tactic(auto, using(rules::proofs::Bytes::Fields::byte_says), unfolding(rules::specs::Form::make_at))]
pub fn make_form(s: &[u8], k: u8, at: usize) -> Result<(Operator, usize), Fault>
    ensures { result ≡ make_at s.now k at }
{
    let made = Operator::Make { dim: k, list: at };
    match k {
        0 => Ok((made, at)),
        1 => {
            byte_form(s, at, 0, 255)?;
            byte_form(s, at + 1, 0, 255)?;
            Ok((made, at + 2))
        }
        _ => Ok((made, list_form(true, s, at)?)),
    }
}

// What a split of dimension k has at `at`: the cell, and above dimension 1 a list without signs.
#[tactic(auto, using(rules::proofs::Bytes::Fields::byte_says), unfolding(rules::specs::Form::split_at))]
fn split_form(s: &[u8], k: u8, at: usize) -> Result<(Operator, usize), Fault>
    ensures { result ≡ split_at s.now k at }
{
    let cell = byte_form(s, at, 0, 255)? as u8;
    let list = at + 1;
    let split = Operator::Split { dim: k, cell, list };
    if k == 1 {
        return Ok((split, list));
    }
    Ok((split, list_form(false, s, list)?))
}

// What a kill, a merge or a flip has at `at`: the cell, of which `named` makes the operator, as a function `o` does.
#[tactic(auto, using(rules::proofs::Bytes::Fields::byte_says), unfolding(rules::specs::Form::cell_at))]
fn cell_form<F: FnOnce(u8) -> Operator>(
    s: &[u8],
    at: usize,
    named: F,
) -> Result<(Operator, usize), Fault>
    requires { F.IsAlwaysCallable named }
    ensures { (o : ℕ → Operator) → ((c : ℕ) (r : Operator) → F.post named c r → r ≡ o c) → result ≡ cell_at s.now o at }
{
    let cell = byte_form(s, at, 0, 255)? as u8;
    Ok((named(cell), at + 1))
}

// The operator at `at`, and the place after it.
#[tactic(auto, using(rules::proofs::Bytes::Fields::byte_says), unfolding(rules::specs::Form::operator_at))]
pub fn read_operator(s: &[u8], at: usize) -> Result<(Operator, usize), Fault>
    ensures { result ≡ operator_at s.now at }
{
    let b = byte_form(s, at, 0, 255)?;
    let next = at + 1;
    let code = code_of(b).ok_or(Fault::Wrong(at))?;
    match code {
        Code::Make(dim) => make_form(s, dim, next),
        Code::Kill(dim) => cell_form(s, next, |cell| Operator::Kill { dim, cell }),
        Code::Split(dim) => split_form(s, dim, next),
        Code::Merge(dim) => cell_form(s, next, |cell| Operator::Merge { dim, cell }),
        Code::Flip(dim) => cell_form(s, next, |cell| Operator::Flip { dim, cell }),
    }
}

// The bytes of one operator, and none after them.
#[tactic(auto, unfolding(rules::specs::Form::lone_operator))]
pub fn form_of_operator(s: &[u8]) -> Result<(Operator, usize), Fault>
    ensures { result ≡ lone_operator s.now }
{
    let (o, next) = read_operator(s, 0)?;
    if next < s.len() {
        return Err(Fault::Left(next));
    }
    Ok((o, next))
}
