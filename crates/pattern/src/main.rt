// The program: a mesh followed by a script is read from standard input, and the printed result is written.
#![tactic(auto)]

use maths::SIZE;
use printing::{print, read_input};
use rules::counts::Counts;
use rules::pattern::Pattern;

fn main(rt: HostRuntime) {
    let mut input = [0u8; 65536];
    let Ok(n) = read_input(&rt, &mut rt.stdin(), &mut input) else {
        return;
    };
    let mut m1 = [0i8; SIZE];
    let mut m2 = [0i8; SIZE];
    let mut m3 = [0i8; SIZE];
    let mut out = [0u8; 38400];
    let mut p = Pattern {
        counts: Counts { n: [0; 4] },
        m1: &mut m1,
        m2: &mut m2,
        m3: &mut m3,
    };
    let _ = print(&rt, &mut p, &input[..n], &mut out);
}
