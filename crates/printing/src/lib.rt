// The printed result of one input, written to standard output; reads and writes that fail.
#![tactic(auto)]

ghost use Rattle.std.specs.Prelude.{◌≤◌, length, IfOk};
ghost use Rattle.rules.specs.Complex.{Sized};
ghost use Rattle.rules.specs.Lending.{lent_by, SameLoans};

use crate::failures::tell;
use crate::pieces::{put_cells_of, put_head};
use crate::run::run_input;
use rules::pattern::Pattern;
use std::io;
use std::io::Read;

mod failures;
mod pieces;
mod run;

// Reads the input until the buffer is full or the input ends, and answers how many bytes that were. A read that fails is told on standard error.
pub fn read_input<R: Read>(rt: &impl Eprint, input: &mut R, buffer: &mut [u8]) -> io::Result<usize>
    ensures { IfOk result (λ n. n ≤ length buffer.old) }
{
    let mut n = 0;
    while n < buffer.len() {
        match input.read(&mut buffer[n..]) {
            Ok(0) => break,
            Ok(more) => n += more,
            Err(error) => {
                tell(rt, "standard input", error);
                return Err(error);
            }
        }
    }
    Ok(n)
}

// A mesh and the script after it are run, and the result is written in three pieces, each by way of `out`. A write that fails is told on standard
// error, and the pieces after it are written all the same.
pub fn print(
    rt: &(impl Print + Eprint),
    p: &mut Pattern,
    s: &[u8],
    out: &mut [u8],
) -> io::Result<()>
    requires sized { Sized (lent_by p.old) }
    requires in_bounds { 38400 ≤ length out.old }
    ensures { SameLoans p.old p.new }
{
    let run = run_input(p, s);
    let left = p.view();
    let head = put_head(out, run, left);
    let first = rt.write_all(&out[..head]);
    let panels = put_cells_of(out, left.counts, 2, left.m2);
    let second = rt.write_all(&out[..panels]);
    let blocks = put_cells_of(out, left.counts, 3, left.m3);
    let third = rt.write_all(&out[..blocks]);
    third
        .and(second)
        .and(first)
        .inspect_err(|error| tell(rt, "standard output", *error))
}
