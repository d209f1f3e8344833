// The work of the program waveform: from the bytes of a file and of a witness to what is printed, at the fronts of line and out.
#![tactic(auto)]

ghost use Rattle.std.specs.Prelude.{◌≡◌, ◌≤◌, length};
ghost use Rattle.aiger.specs.Memory.{Holds};
ghost use Rattle.layout.specs.Words.{circuit_in};
ghost use Rattle.replies.specs.Reply.{Leaves};
ghost use Rattle.replies.specs.Loading.{loaded_words};
ghost use Rattle.waveform_command.specs.Texts.{shown_reply, waveform_reply};

use load::LoadAnswer;
use replies::Report;
use waveform::WaveformAnswer;

// Shows a witness of the circuit in m.
fn waveform_loaded(m: &[u32], witness: &[u8], only: bool, out: &mut [u8], line: &mut [u8]) -> Report
    requires { Holds m.now (circuit_in m.now) × (128 ≤ length line.old) }
    ensures { Leaves (shown_reply (circuit_in m.now) only witness.now (length out.old))
        line.old out.old result line.new out.new }
{
    match waveform::waveform(m, witness, only, out) {
        WaveformAnswer::Length(n) => Report { line: 0, out: n },
        WaveformAnswer::Refused(n) => replies::refuse(line, n),
    }
}

// Loads a file and shows a witness of its circuit: all wires, or the inputs alone.
pub fn waveform(
    file: &[u8],
    witness: &[u8],
    only: bool,
    m: &mut [u32],
    out: &mut [u8],
    line: &mut [u8],
) -> Report
    requires { (length m.old ≡ 33032) × (length out.old ≡ 1572928) × (128 ≤ length line.old) }
    ensures leaves { Leaves (waveform_reply file.now only witness.now) line.old out.old result
        line.new out.new }
    ensures memory { m.new ≡ loaded_words m.old file.now }
{
    match load::load(file, m) {
        LoadAnswer::Refused(n) => replies::refuse(line, n),
        LoadAnswer::Loaded(_) => waveform_loaded(m, witness, only, out, line),
    }
}
