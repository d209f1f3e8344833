// The work of the command widen: from the bytes of files to what is printed, which it leaves at the fronts of line and out.
#![tactic(auto)]

ghost use Rattle.std.specs.Prelude.{◌≡◌, ◌≤◌, length};
ghost use Rattle.aiger.specs.Memory.{Holds};
ghost use Rattle.layout.specs.Words.{circuit_in};
ghost use Rattle.replies.specs.Reply.{Leaves};
ghost use Rattle.replies.specs.Loading.{loaded_words};
ghost use Rattle.widen_command.specs.Texts.{widened_reply, widen_reply};

use load::LoadAnswer;
use replies::Report;
use widen::WidenAnswer;

// Widens a witness on the circuit in m.
fn widen_loaded(m: &[u32], witness: &[u8], out: &mut [u8], line: &mut [u8]) -> Report
    requires { Holds m.now (circuit_in m.now) × (128 ≤ length line.old) }
    ensures { Leaves (widened_reply (circuit_in m.now) witness.now (length out.old))
        line.old out.old result line.new out.new }
{
    match widen::widen(m, witness, out) {
        WidenAnswer::Length(n) => Report { line: 0, out: n },
        WidenAnswer::Refused(n) => replies::refuse(line, n),
    }
}

// Loads a file and widens a witness on its circuit.
pub fn widen(file: &[u8], witness: &[u8], m: &mut [u32], out: &mut [u8], line: &mut [u8]) -> Report
    requires { (length m.old ≡ 33032) × (length out.old ≡ 66826) × (128 ≤ length line.old) }
    ensures leaves { Leaves (widen_reply file.now witness.now) line.old out.old result line.new
        out.new }
    ensures memory { m.new ≡ loaded_words m.old file.now }
{
    match load::load(file, m) {
        LoadAnswer::Refused(n) => replies::refuse(line, n),
        LoadAnswer::Loaded(_) => widen_loaded(m, witness, out, line),
    }
}
