// The program waveform: the run of a witness as a value change dump.
#![tactic(auto)]

ghost use Rattle.std.specs.Prelude.{◌≡◌, length};

use files::{say, say_front};

fn say_help(rt: HostRuntime) {
    say(rt, b"waveform FILE WITNESS [--inputs]\n\n");
    say(
        rt,
        b"Loads the AIGER 1.9 file FILE, reads the witness WITNESS, of 1 to 256 frames, and prints its run as a value change\n",
    );
    say(
        rt,
        b"dump (VCD), one time step a frame: inputs i0 i1 .., latches l0 .., outputs o0 .., bad lines b0 .. and constraints\n",
    );
    say(
        rt,
        b"c0 .., with --inputs the inputs alone. x may stand in WITNESS for up to 16 bits that may be either: then a wire is\n",
    );
    say(
        rt,
        b"0 or 1 where it has that value for both values of each x, else x.\n\n",
    );
    help::say_witness_refusals(rt);
    say(
        rt,
        b"\nExample: ./yunverok waveform crates/waveform_main/data/s.aag crates/waveform_main/data/s.witness\n",
    );
}

// Shows the witness that argument 2 names on the circuit of the file that argument 1 names. Each buffer has one byte more than the longest
// file or witness that is accepted.
fn show_with(rt: HostRuntime, only: bool, out: &mut [u8])
    requires { length out.old ≡ 1572928 }
{
    let mut file = [0u8; 65537];
    let mut text = [0u8; 66826];
    let mut m = [0u32; 33032];
    let mut line = [0u8; 128];
    let got = files::read_two(rt, 1, 2, &mut file, &mut text);
    if got.failed {
        return;
    }
    let n = got.first;
    let k = got.second;
    let report = waveform_command::waveform(&file[..n], &text[..k], only, &mut m, out, &mut line);
    say_front(rt, &line, report.line);
    say_front(rt, out, report.out);
}

// Lends an output that is never too short.
fn show_files(rt: HostRuntime, only: bool) {
    let mut out = [0u8; 1572928];
    show_with(rt, only, &mut out);
}

fn is_inputs_asked(rt: HostRuntime) -> bool {
    let mut word = [0u8; 4096];
    let length = files::argument_text(rt, 3, &mut word);
    &word[..length] == b"--inputs".as_slice()
}

fn main(rt: HostRuntime) {
    if files::argument_count(rt) == 3 {
        show_files(rt, false);
        return;
    }
    if files::argument_count(rt) != 4 {
        say_help(rt);
        return;
    }
    if is_inputs_asked(rt) {
        show_files(rt, true);
        return;
    }
    say_help(rt);
}
