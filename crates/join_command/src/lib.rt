// The work of the command join, and of compare before it searches: from the bytes of two files to the joined circuit. What is to be printed
// is left at the fronts of line and out.
#![tactic(auto)]

ghost use Rattle.std.specs.Prelude.{◌≡◌, ◌≤◌, length};
ghost use Rattle.aiger.specs.Memory.{Holds};
ghost use Rattle.layout.specs.Words.{circuit_in};
ghost use Rattle.replies.specs.Refusal.{refusal_text};
ghost use Rattle.replies.specs.Reply.{Fronts, Leaves};
ghost use Rattle.replies.specs.Loading.{loaded_words, words_after};
ghost use Rattle.join_command.specs.Texts.{joined_answer, second_answer, join_answer, JoinedAs, BothLoaded, join_reply};

use load::LoadAnswer;
use replies::Report;

// How many bytes of the line are to be printed, and the number of pairs of outputs, 0 where the files are refused.
#[derive(Clone, Copy)]
pub struct Paired {
    pub line: usize,
    pub pairs: usize,
}

// The line of a refusal, and no pair.
fn refuse(line: &mut [u8], n: u32) -> Paired
    requires { 128 ≤ length line.old }
    ensures { Fronts (refusal_text n) line.old result.line line.new × (result.pairs ≡ 0) }
{
    let length = replies::write_refusal(line, n);
    Paired {
        line: length,
        pairs: 0,
    }
}

// Joins the circuits in first and second.
fn join_pair(first: &[u32], second: &[u32], third: &mut [u32], line: &mut [u8]) -> Paired
    requires { Holds first.now (circuit_in first.now) × Holds second.now (circuit_in second.now) × (length third.old ≡ 33032)
        × (128 ≤ length line.old) }
    ensures { JoinedAs (joined_answer (circuit_in first.now) (circuit_in second.now)) third.old
        line.old result
        third.new line.new }
{
    match join::join(first, second, third) {
        LoadAnswer::Refused(n) => refuse(line, n),
        LoadAnswer::Loaded(k) => Paired {
            line: 0,
            pairs: k.b as usize,
        },
    }
}

// Loads the new file and joins its circuit with that in first.
fn join_second(
    new: &[u8],
    first: &[u32],
    second: &mut [u32],
    third: &mut [u32],
    line: &mut [u8],
) -> Paired
    requires { Holds first.now (circuit_in first.now) × (length second.old ≡ 33032) × (length third.old ≡ 33032)
        × (128 ≤ length line.old) }
    ensures joins { JoinedAs (second_answer (circuit_in first.now) new.now) third.old line.old result
        third.new line.new }
    ensures memory { second.new ≡ loaded_words second.old new.now }
{
    match load::load(new, second) {
        LoadAnswer::Refused(n) => refuse(line, n),
        LoadAnswer::Loaded(_) => join_pair(first, second, third, line),
    }
}

// Loads two files and joins their circuits.
pub fn join_files(
    old: &[u8],
    new: &[u8],
    first: &mut [u32],
    second: &mut [u32],
    third: &mut [u32],
    line: &mut [u8],
) -> Paired
    requires { (length first.old ≡ 33032) × (length second.old ≡ 33032) × (length third.old ≡ 33032) × (128 ≤ length line.old) }
    ensures joins { JoinedAs (join_answer old.now new.now) third.old line.old result third.new
        line.new }
    ensures memory { BothLoaded old.now new.now first.old second.old first.new second.new }
{
    match load::load(old, first) {
        LoadAnswer::Refused(n) => refuse(line, n),
        LoadAnswer::Loaded(_) => join_second(new, first, second, third, line),
    }
}

// Loads two files, joins their circuits and writes the joined circuit.
pub fn join(
    old: &[u8],
    new: &[u8],
    first: &mut [u32],
    second: &mut [u32],
    third: &mut [u32],
    out: &mut [u8],
    line: &mut [u8],
) -> Report
    requires { (length first.old ≡ 33032) × (length second.old ≡ 33032) × (length third.old ≡ 33032) × (65536 ≤ length out.old)
        × (128 ≤ length line.old) }
    ensures leaves { Leaves (join_reply old.now new.now) line.old out.old result line.new
        out.new }
    ensures memory { BothLoaded old.now new.now first.old second.old first.new second.new
        × (third.new ≡ words_after third.old (join_answer old.now new.now)) }
{
    let joined = join_files(old, new, first, second, third, line);
    if joined.pairs == 0 {
        return Report {
            line: joined.line,
            out: 0,
        };
    }
    commands::write_loaded(0, third, out, line)
}
