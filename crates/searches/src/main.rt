// Clause 9.2: runs the search program on each file that an argument names, and prints the name and what the search program prints.
#![tactic(auto)]

use files::say_front;

fn say_search(rt: HostRuntime, input: &[u8]) {
    let mut m: [u32; 8192] = [0; 8192];
    let mut work: [u32; 8192] = [0; 8192];
    let mut out = [0u8; 2048];
    let mut line = [0u8; 32];
    let report = job::run(input, &mut m, &mut work, &mut out, &mut line);
    say_front(rt, &line, report.line);
    say_front(rt, &out, report.out);
}

fn say_argument(rt: HostRuntime, i: usize) {
    let mut input = [0u8; 65537];
    files::say_argument(rt, i, b"\n");
    let got = files::read_argument(rt, i, &mut input);
    if got.failed {
        return;
    }
    let n = got.count;
    say_search(rt, &input[..n]);
}

fn main(rt: HostRuntime) {
    for i in 1..files::argument_count(rt) {
        say_argument(rt, i);
    }
}
