// The work of the program generate, from numbers to what is printed. It leaves what is to be printed at the fronts of line and out.
#![tactic(auto)]

ghost use Rattle.std.specs.Prelude.{◌≤◌, length};
ghost use Rattle.replies.specs.Reply.{Leaves};
ghost use Rattle.generate_command.specs.Texts.{generate_reply};

use generate::GenerateAnswer;
use replies::Report;

// Writes the circuit of a seed and counts. No text is longer than 55,798 bytes.
pub fn generate(seed: u64, i: u64, l: u64, a: u64, out: &mut [u8], line: &mut [u8]) -> Report
    requires { (55798 ≤ length out.old) × (128 ≤ length line.old) }
    ensures { Leaves (generate_reply seed i l a) line.old out.old result line.new out.new }
{
    match generate::generate(seed, i, l, a, out) {
        GenerateAnswer::Length(n) => Report {
            line: 0,
            out: n as usize,
        },
        GenerateAnswer::Refused(n) => replies::refuse(line, n),
    }
}
