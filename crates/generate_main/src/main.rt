// The program generate: the circuit of a seed and counts, as text.
#![tactic(auto)]

use files::{say, say_front};

fn say_help(rt: HostRuntime) {
    say(rt, b"generate SEED I L A\n\n");
    say(
        rt,
        b"Prints an AIGER file with I inputs, L latches, A gates and one bad line, the last gate. Next literals and operands are drawn from\n",
    );
    say(
        rt,
        b"SEED, a number up to 18446744073709551615: the same SEED, I, L and A give the same bytes wherever this runs.\n\n",
    );
    say(
        rt,
        b"I is at most 256, L 1024, A 3072 and I+L+A 4096; I+L and A are at least 1. Other counts are refused:\n",
    );
    help::say_refusals(rt, 3, 3);
    say(rt, b"\nExample: ./yunverok generate 1 2 2 4\n");
}

// What the arguments ask: a seed, and the counts I, L and A.
#[derive(Clone, Copy)]
struct Wanted {
    seed: u64,
    i: u64,
    l: u64,
    a: u64,
}

// Writes the circuit. No text is longer than 55,798 bytes.
fn say_circuit(rt: HostRuntime, q: Wanted) {
    let mut out = [0u8; 55798];
    let mut line = [0u8; 128];
    let report = generate_command::generate(q.seed, q.i, q.l, q.a, &mut out, &mut line);
    say_front(rt, &line, report.line);
    say_front(rt, &out, report.out);
}

fn asked(rt: HostRuntime) -> Option<Wanted> {
    if files::argument_count(rt) != 5 {
        return None;
    }
    let seed = files::seed_of(files::argument(rt, 1))?;
    let i = files::number_of(files::argument(rt, 2))?;
    let l = files::number_of(files::argument(rt, 3))?;
    let a = files::number_of(files::argument(rt, 4))?;
    Some(Wanted { seed, i, l, a })
}

fn main(rt: HostRuntime) {
    match asked(rt) {
        Some(q) => say_circuit(rt, q),
        None => say_help(rt),
    }
}
