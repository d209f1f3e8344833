// What the help texts of the programs share.
#![tactic(auto)]

ghost use Rattle.std.specs.Prelude.{◌≡◌, true};
ghost use Rattle.aiger.specs.Text.{bytes};

use files::say;

// Whether a word is `--help`.
pub fn is_help(word: &[u8]) -> bool
    ensures { (result ≡ true → word.now ≡ bytes "--help") × (word.now ≡ bytes "--help" → result ≡ true) }
{
    word == b"--help".as_slice()
}

// Prints the line of refusal n.
fn say_refusal(rt: HostRuntime, n: u32) {
    let mut line = [0u8; 128];
    say(rt, b"    ");
    let length = replies::write_refusal(&mut line, n);
    say(rt, &line[..length]);
}

// Prints the lines of the refusals from first to last.
pub fn say_refusals(rt: HostRuntime, first: u32, last: u32) {
    for n in first..=last {
        say_refusal(rt, n);
    }
}

// Prints what a program that loads a file refuses for its file.
pub fn say_file_refusals(rt: HostRuntime) {
    say(
        rt,
        b"What is not accepted is refused with a number and its cause:\n",
    );
    say_refusals(rt, 1, 3);
    say_refusals(rt, 5, 8);
    say_refusals(rt, 15, 15);
}

// Prints what a program refuses that loads a file and reads a witness.
pub fn say_witness_refusals(rt: HostRuntime) {
    say_file_refusals(rt);
    say_refusals(rt, 14, 14);
    say_refusals(rt, 16, 16);
}
