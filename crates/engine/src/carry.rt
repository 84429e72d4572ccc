// A chain carried through one operator. The pattern stays as it is: the operator is tried on a copy.
ghost use Rattle.std.specs.Prelude.{◌≡◌};
ghost use Rattle.maths.specs.Tables.{table};
ghost use Rattle.rules.specs.Complex.{complex};
ghost use Rattle.rules.specs.Operators.{step};
ghost use Rattle.rules.specs.Form.{faces_of};
ghost use Rattle.rules.specs.Chains.{carry_step};
ghost use Rattle.rules.specs.Calls.{given, coefficients, carry_call, carried_by};
ghost use Rattle.rules.specs.Told.{number_told, stopped_number, stopped_place, Placed};
ghost use Rattle.rules.specs.Lending.{seen_by};
ghost use Rattle.rules.specs.Good.{Held};
ghost use Rattle.engine.specs.Source.{ReadFrom};
ghost use Rattle.engine.specs.Carrying.{number_of, rewritten, Rewritable, Carriable};

use crate::apply::apply;
use crate::chains::{copy_chain, is_chain};
use form::operators::form_of_operator;
use good::refusal_of_pattern;
use maths::{SIDE, SIZE};
use rules::counts::Counts;
use rules::operator::Operator;
use rules::pattern::{Pattern, View};
use rules::refusals::{Refusal, Stop};

// How far from 0 a coefficient may be.
const CARRY_LIMIT: u32 = 100_000_000;

// The operator's own refusal, if it has one: it is applied to a copy.
fn refusal_of_trial(p: View, o: Operator, s: &[u8]) -> Result<Counts, Refusal>
    requires held { Held (seen_by p) }
    requires read_from { ReadFrom s.now o }
    ensures { number_told result ≡ number_of (step o (faces_of s.now o) (complex (seen_by p.entry))) }
{
    let mut t1 = [0i8; SIZE];
    let mut t2 = [0i8; SIZE];
    let mut t3 = [0i8; SIZE];
    t1.copy_from_slice(p.m1);
    t2.copy_from_slice(p.m2);
    t3.copy_from_slice(p.m3);
    let mut trial = Pattern {
        counts: p.counts,
        m1: &mut t1,
        m2: &mut t2,
        m3: &mut t3,
    };
    apply(&mut trial, o, s)
}

// The refusal of carrying through an operator, if it has one: 17 before its own.
fn refusal_of_carrying(p: View, o: Operator, s: &[u8]) -> Result<Counts, Refusal>
    requires held { Held (seen_by p) }
    requires read_from { ReadFrom s.now o }
    ensures { number_told result ≡ number_of (carry_step o (faces_of s.now o) (complex (seen_by p.entry))) }
{
    match o {
        Operator::Kill { .. } | Operator::Merge { .. } => Err(Refusal::NotCarried),
        Operator::Make { .. } | Operator::Split { .. } | Operator::Flip { .. } => {
            refusal_of_trial(p, o, s)
        }
    }
}

// The chain of n cells of dimension d, as an accepted operator carries it; a kill and a merge are none.
fn write_carried(o: Operator, n: u8, d: u8, chain: &[i32], out: &mut [i32])
    requires { Rewritable o n d chain.now out.old }
    ensures { out.new ≡ table 96 (rewritten o n d (coefficients chain.now)) }
{
    copy_chain(out, chain);
    match o {
        Operator::Split { dim, cell, .. } => {
            if d == dim {
                out[n as usize] = chain[cell as usize];
            }
        }
        Operator::Flip { dim, cell } => {
            if d == dim {
                out[cell as usize] = -chain[cell as usize];
            }
        }
        Operator::Make { .. } | Operator::Kill { .. } | Operator::Merge { .. } => {}
    }
}

// The chain carried through the operator o, which was read from the bytes s, on a good pattern.
fn carry_through(
    p: View,
    o: Operator,
    s: &[u8],
    d: u8,
    chain: &[i32],
    out: &mut [i32],
) -> Result<(), Refusal>
    requires { Carriable (seen_by p) s.now o d chain.now out.old }
    ensures { given (number_told result) out.new ≡ carried_by (seen_by p.entry) s.now o d chain.now out.old }
{
    refusal_of_carrying(p, o, s)?;
    let n = p.counts.n[d as usize];
    if !is_chain(CARRY_LIMIT, n, chain) {
        return Err(Refusal::WrongChain);
    }
    write_carried(o, n, d, chain, out);
    Ok(())
}

// The chain carried through the operator of which s are the bytes, or a refusal by 1, 2, 4, the bytes' form, 17, the operator's own or 16, in this order,
// and then nothing is changed.
pub fn carry(p: View, s: &[u8], d: u8, chain: &[i32], out: &mut [i32]) -> Result<(), Stop>
    ensures does { record { refusal = stopped_number result; place = stopped_place result; out = out.new } ≡ carry_call (seen_by p.entry) s.now d chain.now out.old }
    ensures placed { Placed result }
{
    if chain.len() != SIDE || out.len() != SIDE {
        return Err(Stop::Meaning(Refusal::WrongLength));
    }
    refusal_of_pattern(p)?;
    if 3 < d {
        return Err(Stop::Meaning(Refusal::WrongDimension));
    }
    let (o, _) = form_of_operator(s)?;
    carry_through(p, o, s, d, chain, out)?;
    Ok(())
}
