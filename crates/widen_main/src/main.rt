// The program widen: `x` in a witness wherever every completion still hits.
#![tactic(auto)]

use files::{say, say_front};

fn say_help(rt: HostRuntime) {
    say(rt, b"widen FILE WITNESS\n\n");
    say(
        rt,
        b"Loads the AIGER 1.9 file FILE, reads the witness WITNESS as replay does, and prints it with x in place of the\n",
    );
    say(
        rt,
        b"bits that may be either: from the last bit to the first, wherever every completion is still a hit, until the text\n",
    );
    say(
        rt,
        b"holds 16. A witness to which replay does not say all is printed as it is.\n\n",
    );
    help::say_witness_refusals(rt);
    say(
        rt,
        b"\nExample: ./yunverok widen crates/widen_main/data/s.aag crates/widen_main/data/s.witness\n",
    );
}

// Widens the witness that argument 2 names on the circuit of the file that argument 1 names. No witness has more than 66,825 bytes, so
// one byte more is read to see that a longer one is malformed, and the output is never too short.
fn widen_files(rt: HostRuntime) {
    let mut file = [0u8; 65537];
    let mut text = [0u8; 66826];
    let mut m = [0u32; 33032];
    let mut out = [0u8; 66826];
    let mut line = [0u8; 128];
    let got = files::read_two(rt, 1, 2, &mut file, &mut text);
    if got.failed {
        return;
    }
    let n = got.first;
    let k = got.second;
    let report = widen_command::widen(&file[..n], &text[..k], &mut m, &mut out, &mut line);
    say_front(rt, &line, report.line);
    say_front(rt, &out, report.out);
}

fn main(rt: HostRuntime) {
    if files::argument_count(rt) != 3 {
        say_help(rt);
        return;
    }
    widen_files(rt);
}
