// The program on many inputs, at most 65,536: each is a length in three bytes, low first, and that many bytes, at most 65,536. What is printed for one
// follows what is printed for the one before, and a greater length ends the run.
#![tactic(auto)]

use maths::SIZE;
use printing::{print, read_input};
use rules::counts::Counts;
use rules::pattern::Pattern;
use std::io::Read;

// Room for an input, its pattern and a piece of its result.
#[derive(Drop)]
struct Room {
    input: [u8; 65536],
    m1: [i8; SIZE],
    m2: [i8; SIZE],
    m3: [i8; SIZE],
    out: [u8; 38400],
}

// One input, and whether there was one and it was printed.
fn print_next<R: Read>(rt: &(impl Print + Eprint), from: &mut R, room: &mut Room) -> bool {
    // three bytes, and a fourth that stays 0
    let mut head = [0u8; 4];
    let Ok(3) = read_input(rt, from, &mut head[..3]) else {
        return false;
    };
    let size = u32::from_le_bytes(head) as usize;
    if 65536 < size {
        return false;
    }
    let Ok(n) = read_input(rt, from, &mut room.input[..size]) else {
        return false;
    };
    let mut p = Pattern {
        counts: Counts { n: [0; 4] },
        m1: &mut room.m1,
        m2: &mut room.m2,
        m3: &mut room.m3,
    };
    print(rt, &mut p, &room.input[..n], &mut room.out).is_ok()
}

fn main(rt: HostRuntime) {
    let mut from = rt.stdin();
    let mut room = Room {
        input: [0; 65536],
        m1: [0; SIZE],
        m2: [0; SIZE],
        m3: [0; SIZE],
        out: [0; 38400],
    };
    for _ in 0..65536 {
        if !print_next(&rt, &mut from, &mut room) {
            break;
        }
    }
}
