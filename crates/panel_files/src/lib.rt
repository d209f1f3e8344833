// The work of the resident program's commands that name a witness: what is to be printed is left at the fronts of line and out.
#![tactic(auto)]

ghost use Rattle.std.specs.Prelude.{[], ◌≤◌, length};
ghost use Rattle.replies.specs.Reply.{Fronts};
ghost use Rattle.replay.specs.Answer.{answered};
ghost use Rattle.call_forms.specs.Forms.{UserReplayed, UserWidened, UserWaveformed};
ghost use Rattle.panel.specs.Answers.{text_words, no_text, text_length, Reported};
ghost use Rattle.panel_files.specs.Files.{verdict_words, Viewed};

use panel_lines::View;
use replay::ReplayAnswer;
use replies::Report;
use waveform::WaveformAnswer;
use widen::WidenAnswer;

// Writes what replay answers to the front of line.
fn write_verdict(line: &mut [u8], answer: ReplayAnswer) -> usize
    requires { 128 ≤ length line.old }
    ensures { Fronts (verdict_words (answered answer)) line.old result line.new }
{
    match answer {
        ReplayAnswer::All => output::put(line, 0, b"all\n"),
        ReplayAnswer::No => output::put(line, 0, b"no\n"),
        ReplayAnswer::Mixed => output::put(line, 0, b"mixed\n"),
        ReplayAnswer::Refused(n) => replies::write_refusal(line, n),
    }
}

// Replays a witness.
fn replay(user: u64, witness: &[u8], m: &[u32], pins: &[u8], line: &mut [u8]) -> Report
    requires { 128 ≤ length line.old }
    ensures { Reported (UserReplayed m.now pins.now user witness.now) verdict_words no_text line.old result
        line.new [] }
{
    let answer = calls::replay(user, pins, m, witness);
    let length = write_verdict(line, answer);
    Report {
        line: length,
        out: 0,
    }
}

// Widens a witness.
fn widen(
    user: u64,
    witness: &[u8],
    m: &[u32],
    pins: &[u8],
    out: &mut [u8],
    line: &mut [u8],
) -> Report
    requires { 128 ≤ length line.old }
    ensures { Reported (λ a. UserWidened m.now pins.now user witness.now out.old a out.new)
        text_words text_length line.old result line.new out.new }
{
    match calls::widen(user, pins, m, witness, out) {
        WidenAnswer::Length(n) => Report { line: 0, out: n },
        WidenAnswer::Refused(n) => replies::refuse(line, n),
    }
}

// Shows the run of a witness.
fn waveform(
    user: u64,
    only: bool,
    witness: &[u8],
    m: &[u32],
    out: &mut [u8],
    line: &mut [u8],
) -> Report
    requires { 128 ≤ length line.old }
    ensures { Reported (λ a. UserWaveformed m.now user only witness.now out.old a out.new)
        text_words text_length line.old result line.new out.new }
{
    match calls::waveform(user, m, witness, only, out) {
        WaveformAnswer::Length(n) => Report { line: 0, out: n },
        WaveformAnswer::Refused(n) => replies::refuse(line, n),
    }
}

// Does what is asked of a witness.
pub fn view(
    user: u64,
    v: View,
    witness: &[u8],
    m: &[u32],
    pins: &[u8],
    out: &mut [u8],
    line: &mut [u8],
) -> Report
    requires { 128 ≤ length line.old }
    ensures { Viewed v user witness.now m.now pins.now out.old line.old result out.new
        line.new }
{
    match v {
        View::Replay => replay(user, witness, m, pins, line),
        View::Widen => widen(user, witness, m, pins, out, line),
        View::Waveform(only) => waveform(user, only, witness, m, out, line),
    }
}
