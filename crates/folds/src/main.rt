// Folds each file that an argument names: a line `fold b t`, then an AIGER file. Prints the name and the folded frame's text, or
// `refused` and the number.
#![tactic(auto)]

use files::{say_front, say_refused};
use fold::FoldAnswer;
use load::LoadAnswer;
use numbers::Number;

fn say_folded(rt: HostRuntime, m: &[u32], b: u64, t: u64, work: &mut [u32], out: &mut [u8]) {
    match fold::fold(m, b, t, work, out) {
        FoldAnswer::Length(n) => {
            if n <= 98368 {
                say_front(rt, out, n);
            }
        }
        FoldAnswer::Refused(n) => say_refused(rt, n),
    }
}

fn say_loaded(
    rt: HostRuntime,
    file: &[u8],
    b: u64,
    t: u64,
    m: &mut [u32],
    work: &mut [u32],
    out: &mut [u8],
) {
    match load::load(file, m) {
        LoadAnswer::Loaded(_) => say_folded(rt, m, b, t, work, out),
        LoadAnswer::Refused(n) => say_refused(rt, n),
    }
}

fn say_input(rt: HostRuntime, input: &[u8], m: &mut [u32], work: &mut [u32], out: &mut [u8]) {
    let Some(Number::Spaced(b, second)) = numbers::read_number(input, 5) else {
        return;
    };
    let Some(Number::Ended(t, at)) = numbers::read_number(input, second) else {
        return;
    };
    if input.len() < at {
        return;
    }
    say_loaded(rt, &input[at..], b, t, m, work, out);
}

// The line has at most 27 bytes and a file that is accepted 65,536, so that a longer file is seen and refused.
fn say_argument(rt: HostRuntime, i: usize) {
    let mut m = [0u32; 33040];
    let mut work = [0u32; 65536];
    let mut out = [0u8; 98368];
    let mut input = [0u8; 65564];
    files::say_argument(rt, i, b"\n");
    let got = files::read_argument(rt, i, &mut input);
    if got.failed {
        return;
    }
    let n = got.count;
    say_input(rt, &input[..n], &mut m, &mut work, &mut out);
}

fn main(rt: HostRuntime) {
    let count = files::argument_count(rt);
    let mut i: usize = 1;
    while i < count {
        say_argument(rt, i);
        i += 1;
    }
}
