// The program replay: whether the completions of a witness are hits.
#![tactic(auto)]

use files::{say, say_front};

fn say_help(rt: HostRuntime) {
    say(rt, b"replay FILE WITNESS\n\n");
    say(
        rt,
        b"Loads the AIGER 1.9 file FILE, reads the witness WITNESS, of 1 to 256 frames, in the form in which a search\n",
    );
    say(
        rt,
        b"prints it after its first line; x may stand for up to 16 bits that may be either. A completion, which has 0 or 1\n",
    );
    say(
        rt,
        b"for each x, is a hit if its start agrees with every reset and its last frame is a hit of its bad line. Prints all\n",
    );
    say(
        rt,
        b"if every completion is a hit, no if none is, otherwise mixed.\n\n",
    );
    help::say_witness_refusals(rt);
    say(
        rt,
        b"\nExample: ./yunverok replay crates/replay_main/data/s.aag crates/replay_main/data/s.witness\n",
    );
}

// Replays the witness that argument 2 names on the circuit of the file that argument 1 names. No witness has more than 66,825 bytes, those
// of 256 frames of 256 inputs, so one byte more is read to see that a longer one is malformed.
fn replay_files(rt: HostRuntime) {
    let mut file = [0u8; 65537];
    let mut text = [0u8; 66826];
    let mut m = [0u32; 33032];
    let mut line = [0u8; 128];
    let got = files::read_two(rt, 1, 2, &mut file, &mut text);
    if got.failed {
        return;
    }
    let n = got.first;
    let k = got.second;
    let said = commands::replay(&file[..n], &text[..k], &mut m, &mut line);
    say_front(rt, &line, said);
}

fn main(rt: HostRuntime) {
    if files::argument_count(rt) != 3 {
        say_help(rt);
        return;
    }
    replay_files(rt);
}
