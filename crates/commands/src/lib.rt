// Writing of a loaded circuit, and the work of the programs replay and fold, from the bytes of files to what is printed. Each leaves
// what is to be printed at the fronts of line and, save replay, out.
#![tactic(auto)]

ghost use Rattle.std.specs.Prelude.{◌≡◌, ◌≤◌, length};
ghost use Rattle.aiger.specs.Memory.{Holds};
ghost use Rattle.aiger.specs.Write.{write};
ghost use Rattle.layout.specs.Words.{circuit_in};
ghost use Rattle.replies.specs.Reply.{Fronts, Leaves};
ghost use Rattle.replies.specs.Loading.{loaded_words};
ghost use Rattle.commands.specs.Texts.{
  written_in,
  text_of,
  verdict_text,
  replay_answer,
  replay_text,
  folded_reply,
  fold_reply,
};

use fold::FoldAnswer;
use load::LoadAnswer;
use replay::ReplayAnswer;
use replies::Report;
use write::WriteAnswer;

// Writes the circuit in m in a form.
pub fn write_loaded(form: u64, m: &[u32], out: &mut [u8], line: &mut [u8]) -> Report
    requires { Holds m.now (circuit_in m.now) × (65536 ≤ length out.old) × (128 ≤ length line.old) × (form ≤ 1) }
    ensures { Leaves (written_in form (circuit_in m.now)) line.old out.old result line.new out.new }
{
    match writer::write(m, form, out) {
        WriteAnswer::Length(n) => Report { line: 0, out: n },
        WriteAnswer::Refused(n) => replies::refuse(line, n),
    }
}

// Replays a witness on the circuit in m. The answer is the length of what is to be printed.
fn replay_loaded(m: &[u32], witness: &[u8], line: &mut [u8]) -> usize
    requires { Holds m.now (circuit_in m.now) × (128 ≤ length line.old) }
    ensures { Fronts (text_of verdict_text (replay_answer (circuit_in m.now) witness.now)) line.old result
        line.new }
{
    match replay::replay(m, witness) {
        ReplayAnswer::All => output::put(line, 0, b"all\n"),
        ReplayAnswer::No => output::put(line, 0, b"no\n"),
        ReplayAnswer::Mixed => output::put(line, 0, b"mixed\n"),
        ReplayAnswer::Refused(n) => replies::write_refusal(line, n),
    }
}

// Loads a file and replays a witness on its circuit. The answer is the length of what is to be printed.
pub fn replay(file: &[u8], witness: &[u8], m: &mut [u32], line: &mut [u8]) -> usize
    requires { (length m.old ≡ 33032) × (128 ≤ length line.old) }
    ensures leaves { Fronts (replay_text file.now witness.now) line.old result line.new }
    ensures memory { m.new ≡ loaded_words m.old file.now }
{
    match load::load(file, m) {
        LoadAnswer::Refused(n) => replies::write_refusal(line, n),
        LoadAnswer::Loaded(_) => replay_loaded(m, witness, line),
    }
}

// Folds the circuit in m.
fn fold_loaded(
    m: &[u32],
    b: u64,
    t: u64,
    work: &mut [u32],
    out: &mut [u8],
    line: &mut [u8],
) -> Report
    requires { Holds m.now (circuit_in m.now) × (128 ≤ length line.old) }
    ensures { Leaves (folded_reply (circuit_in m.now) b t (length work.old) (length out.old))
        line.old out.old result line.new out.new }
{
    match fold::fold(m, b, t, work, out) {
        FoldAnswer::Length(n) => Report { line: 0, out: n },
        FoldAnswer::Refused(n) => replies::refuse(line, n),
    }
}

// Loads a file and folds bad line b of its circuit at frame t.
pub fn fold(
    file: &[u8],
    b: u64,
    t: u64,
    m: &mut [u32],
    work: &mut [u32],
    out: &mut [u8],
    line: &mut [u8],
) -> Report
    requires { (length m.old ≡ 33032) × (length work.old ≡ 1048576) × (length out.old ≡ 1572928) × (128 ≤ length line.old) }
    ensures leaves { Leaves (fold_reply file.now b t) line.old out.old result line.new out.new }
    ensures memory { m.new ≡ loaded_words m.old file.now }
{
    match load::load(file, m) {
        LoadAnswer::Refused(n) => replies::refuse(line, n),
        LoadAnswer::Loaded(_) => fold_loaded(m, b, t, work, out, line),
    }
}
