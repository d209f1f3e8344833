// Widens witnesses. The arguments are pairs: the name of a circuit's file and that of a witness. Prints both names, and the text or the
// refusal.
#![tactic(auto)]

use files::{say, say_front, say_refused};
use load::LoadAnswer;
use widen::WidenAnswer;

fn say_text(rt: HostRuntime, out: &[u8], n: usize) {
    say(rt, b"\n");
    if n <= 4096 {
        say_front(rt, out, n);
    }
}

fn say_widened(rt: HostRuntime, circuit: &[u8], text: &[u8]) {
    let mut m = [0u32; 8192];
    let mut out = [0u8; 4096];
    if let LoadAnswer::Refused(n) = load::load(circuit, &mut m) {
        say_refused(rt, n);
    }
    match widen::widen(&m, text, &mut out) {
        WidenAnswer::Length(n) => say_text(rt, &out, n),
        WidenAnswer::Refused(n) => say_refused(rt, n),
    }
}

fn say_pair(rt: HostRuntime, i: usize, j: usize) {
    let mut circuit = [0u8; 4096];
    let mut text = [0u8; 4096];
    files::say_argument(rt, i, b" ");
    files::say_argument(rt, j, b" ");
    let got = files::read_two(rt, i, j, &mut circuit, &mut text);
    if got.failed {
        return;
    }
    let n = got.first;
    let k = got.second;
    say_widened(rt, &circuit[..n], &text[..k]);
}

fn main(rt: HostRuntime) {
    let count = files::argument_count(rt);
    let mut k: usize = 0;
    while k < count / 2 {
        say_pair(rt, 2 * k + 1, 2 * k + 2);
        k += 1;
    }
}
