// The work of the program write: from the bytes of a file to what is printed, at the fronts of line and out.
#![tactic(auto)]

ghost use Rattle.std.specs.Prelude.{◌≡◌, ◌≤◌, length};
ghost use Rattle.aiger.specs.Memory.{Holds};
ghost use Rattle.layout.specs.Words.{circuit_in};
ghost use Rattle.replies.specs.Reply.{Leaves};
ghost use Rattle.replies.specs.Loading.{loaded_words};
ghost use Rattle.write_command.specs.Texts.{written, write_reply};

use load::LoadAnswer;
use replies::Report;

// Writes the circuit in m, in binary form or as text.
fn write_loaded(binary: bool, m: &[u32], out: &mut [u8], line: &mut [u8]) -> Report
    requires { Holds m.now (circuit_in m.now) × (65536 ≤ length out.old) × (128 ≤ length line.old) }
    ensures { Leaves (written binary (circuit_in m.now)) line.old out.old result line.new out.new }
{
    if binary {
        commands::write_loaded(1, m, out, line)
    } else {
        commands::write_loaded(0, m, out, line)
    }
}

// Loads a file and writes its circuit, in binary form or as text.
pub fn write(binary: bool, file: &[u8], m: &mut [u32], out: &mut [u8], line: &mut [u8]) -> Report
    requires { (length m.old ≡ 33032) × (65536 ≤ length out.old) × (128 ≤ length line.old) }
    ensures leaves { Leaves (write_reply binary file.now) line.old out.old result line.new out.new }
    ensures memory { m.new ≡ loaded_words m.old file.now }
{
    match load::load(file, m) {
        LoadAnswer::Refused(n) => replies::refuse(line, n),
        LoadAnswer::Loaded(_) => write_loaded(binary, m, out, line),
    }
}
