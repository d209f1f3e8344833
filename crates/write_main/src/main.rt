// The program write: the circuit of a file as text, or in binary form.
#![tactic(auto)]

use files::{say, say_front};

fn say_help(rt: HostRuntime) {
    say(rt, b"write FILE [--binary]\n\n");
    say(
        rt,
        b"Loads the AIGER 1.9 file FILE and prints its circuit: a header of seven numbers, the definitions in\n",
    );
    say(
        rt,
        b"their order, a reset only where it is not 0, and no tail.\n\n",
    );
    say(
        rt,
        b"With --binary it prints the binary form: differences of gates in the fewest groups. Variables get new numbers: inputs,\n",
    );
    say(
        rt,
        b"latches, then gates, each time the earliest listed gate whose operands have numbers.\n\n",
    );
    help::say_file_refusals(rt);
    say(
        rt,
        b"\nExample: ./yunverok write crates/write_main/data/s.aag\n",
    );
}

fn is_help_asked(rt: HostRuntime) -> bool {
    let mut word = [0u8; 4096];
    let length = files::argument_text(rt, 1, &mut word);
    help::is_help(&word[..length])
}

fn is_binary_asked(rt: HostRuntime) -> bool {
    let mut word = [0u8; 4096];
    let length = files::argument_text(rt, 2, &mut word);
    &word[..length] == b"--binary".as_slice()
}

// Writes the circuit of the file that argument 1 names.
fn write_file(rt: HostRuntime, binary: bool) {
    let mut file = [0u8; 65537];
    let mut m = [0u32; 33032];
    let mut out = [0u8; 65536];
    let mut line = [0u8; 128];
    let got = files::read_argument(rt, 1, &mut file);
    if got.failed {
        return;
    }
    let n = got.count;
    let report = write_command::write(binary, &file[..n], &mut m, &mut out, &mut line);
    say_front(rt, &line, report.line);
    say_front(rt, &out, report.out);
}

// One argument: text, unless help is asked. Two: the binary form.
fn main(rt: HostRuntime) {
    let count = files::argument_count(rt);
    if count == 2 {
        if is_help_asked(rt) {
            say_help(rt);
            return;
        }
        write_file(rt, false);
        return;
    }
    if count != 3 {
        say_help(rt);
        return;
    }
    if is_binary_asked(rt) {
        write_file(rt, true);
        return;
    }
    say_help(rt);
}
