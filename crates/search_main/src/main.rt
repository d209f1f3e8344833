// The search program: a line `search b k D` and a file from standard input, the answer to standard output.
#![tactic(auto)]

// Writes a text to standard output. Where that fails, it is told on standard error.
fn say(rt: HostRuntime, text: &[u8]) {
    if input::write_all(&rt, text).is_err() {
        input::note(rt, b"standard output: a write failed\n");
    }
}

// Clauses 8.2 and 11.5: the memories that are lent.
fn main(rt: HostRuntime) {
    let mut text = [0u8; 65537];
    let mut m: [u32; 8192] = [0; 8192];
    let mut work: [u32; 8192] = [0; 8192];
    let mut out = [0u8; 2048];
    let mut line = [0u8; 32];
    let mut source = rt.stdin();
    let got = input::read_all(&mut source, &mut text);
    if got.failed {
        input::note(rt, b"standard input: a read failed\n");
        return;
    }
    let n = got.count;
    let report = job::run(&text[..n], &mut m, &mut work, &mut out, &mut line);
    let said = report.line;
    let witness = report.out;
    say(rt, &line[..said]);
    say(rt, &out[..witness]);
}
