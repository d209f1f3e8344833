// Replays witnesses. The arguments are pairs: the name of a circuit's file and that of a witness. Prints both names and the answer.
#![tactic(auto)]

use files::{say, say_refused};
use load::LoadAnswer;
use replay::ReplayAnswer;

fn say_replay(rt: HostRuntime, circuit: &[u8], text: &[u8]) {
    let mut m = [0u32; 8192];
    if let LoadAnswer::Refused(n) = load::load(circuit, &mut m) {
        say_refused(rt, n);
    }
    match replay::replay(&m, text) {
        ReplayAnswer::All => say(rt, b"all\n"),
        ReplayAnswer::No => say(rt, b"no\n"),
        ReplayAnswer::Mixed => say(rt, b"mixed\n"),
        ReplayAnswer::Refused(n) => say_refused(rt, n),
    }
}

// Each buffer has one byte more than the longest file or witness that is accepted, so that none is cut to one that is.
fn say_pair(rt: HostRuntime, i: usize, j: usize) {
    let mut circuit = [0u8; 65537];
    let mut text = [0u8; 66826];
    files::say_argument(rt, i, b" ");
    files::say_argument(rt, j, b" ");
    let got = files::read_two(rt, i, j, &mut circuit, &mut text);
    if got.failed {
        return;
    }
    let n = got.first;
    let k = got.second;
    say_replay(rt, &circuit[..n], &text[..k]);
}

fn main(rt: HostRuntime) {
    let count = files::argument_count(rt);
    for k in 0..count / 2 {
        say_pair(rt, 2 * k + 1, 2 * k + 2);
    }
}
