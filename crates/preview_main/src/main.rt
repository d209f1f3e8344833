// The program preview: what a load of a file would answer, and the words of circuit memory that it needs.
#![tactic(auto)]

use files::{say, say_front};

fn say_help(rt: HostRuntime) {
    say(rt, b"preview FILE\n\n");
    say(
        rt,
        b"Says what a load of the AIGER 1.9 file FILE would answer, and loads nothing. Where it would be accepted, prints loads and\n",
    );
    say(
        rt,
        b"the seven counts M I L O A B C, and in a line after it words and how many words of circuit memory its circuit needs.\n\n",
    );
    help::say_file_refusals(rt);
    say(
        rt,
        b"With 5 to 8 and 15 the counts are known, and the words needed are printed too.\n",
    );
    say(
        rt,
        b"\nExample: ./yunverok preview crates/preview_main/data/s.aag\n",
    );
}

fn is_help_asked(rt: HostRuntime) -> bool {
    let mut word = [0u8; 4096];
    let length = files::argument_text(rt, 1, &mut word);
    help::is_help(&word[..length])
}

// Previews the load of the file that argument 1 names.
fn preview_file(rt: HostRuntime) {
    let mut file = [0u8; 65537];
    let m = [0u32; 33032];
    let mut out = [0u8; 32];
    let mut line = [0u8; 128];
    let got = files::read_argument(rt, 1, &mut file);
    if got.failed {
        return;
    }
    let n = got.count;
    let report = preview_command::preview(&file[..n], &m, &mut out, &mut line);
    say_front(rt, &line, report.line);
    say_front(rt, &out, report.out);
}

fn main(rt: HostRuntime) {
    if files::argument_count(rt) != 2 {
        say_help(rt);
        return;
    }
    if is_help_asked(rt) {
        say_help(rt);
        return;
    }
    preview_file(rt);
}
