// The program join: two circuits joined into one, as text.
#![tactic(auto)]

ghost use Rattle.std.specs.Prelude.{◌≡◌, length};

use files::{say, say_front};

fn say_help(rt: HostRuntime) {
    say(rt, b"join OLD NEW\n\n");
    say(
        rt,
        b"Loads the AIGER 1.9 files OLD and NEW, the old trigger and the new one, which have the same numbers of inputs\n",
    );
    say(
        rt,
        b"and of outputs, and prints one circuit of both: the same inputs for both, and bad line j true where outputs j differ.\n\n",
    );
    help::say_file_refusals(rt);
    help::say_refusals(rt, 17, 17);
    say(
        rt,
        b"\nExample: ./yunverok join crates/join_main/data/old.aag crates/join_main/data/new.aag\n",
    );
}

// Joins the circuits of the files that arguments 1 and 2 name.
fn join_with(rt: HostRuntime, first: &mut [u32], second: &mut [u32])
    requires { (length first.old ≡ 33032) × (length second.old ≡ 33032) }
{
    let mut old = [0u8; 65537];
    let mut new = [0u8; 65537];
    let mut third = [0u32; 33032];
    let mut out = [0u8; 65536];
    let mut line = [0u8; 128];
    let got = files::read_two(rt, 1, 2, &mut old, &mut new);
    if got.failed {
        return;
    }
    let n = got.first;
    let k = got.second;
    let report = join_command::join(
        &old[..n],
        &new[..k],
        first,
        second,
        &mut third,
        &mut out,
        &mut line,
    );
    say_front(rt, &line, report.line);
    say_front(rt, &out, report.out);
}

fn join_files(rt: HostRuntime) {
    let mut first = [0u32; 33032];
    let mut second = [0u32; 33032];
    join_with(rt, &mut first, &mut second);
}

fn main(rt: HostRuntime) {
    if files::argument_count(rt) != 3 {
        say_help(rt);
        return;
    }
    join_files(rt);
}
