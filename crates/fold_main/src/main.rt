// The program fold: a frame of a circuit as one circuit over its free bits.
#![tactic(auto)]

ghost use Rattle.std.specs.Prelude.{◌≡◌, length};

use files::{say, say_front};

fn say_help(rt: HostRuntime) {
    say(rt, b"fold FILE b t\n\n");
    say(
        rt,
        b"Loads the AIGER 1.9 file FILE and prints the hit of bad line b at frame t as an AIGER file with no latch:\n",
    );
    say(
        rt,
        b"its inputs are the free start values and the inputs of frames 0 to t, its output is the hit.\n\n",
    );
    help::say_file_refusals(rt);
    help::say_refusals(rt, 10, 12);
    say(
        rt,
        b"\nExample: ./yunverok fold crates/fold_main/data/s.aag 0 2\n",
    );
}

// Folds bad line b of the circuit of the file that argument 1 names at frame t.
fn fold_with(rt: HostRuntime, b: u64, t: u64, work: &mut [u32], out: &mut [u8])
    requires { (length work.old ≡ 1048576) × (length out.old ≡ 1572928) }
{
    let mut file = [0u8; 65537];
    let mut m = [0u32; 33032];
    let mut line = [0u8; 128];
    let got = files::read_argument(rt, 1, &mut file);
    if got.failed {
        return;
    }
    let n = got.count;
    let report = commands::fold(&file[..n], b, t, &mut m, work, out, &mut line);
    say_front(rt, &line, report.line);
    say_front(rt, out, report.out);
}

// Lends the memories for the greatest size, 65,536.
fn fold_file(rt: HostRuntime, b: u64, t: u64) {
    let mut work = [0u32; 1048576];
    let mut out = [0u8; 1572928];
    fold_with(rt, b, t, &mut work, &mut out);
}

// What the arguments ask: FILE b t.
fn asked(rt: HostRuntime) -> Option<(u64, u64)> {
    if files::argument_count(rt) != 4 {
        return None;
    }
    let b = files::number_of(files::argument(rt, 2))?;
    let t = files::number_of(files::argument(rt, 3))?;
    Some((b, t))
}

fn main(rt: HostRuntime) {
    match asked(rt) {
        Some((b, t)) => fold_file(rt, b, t),
        None => say_help(rt),
    }
}
