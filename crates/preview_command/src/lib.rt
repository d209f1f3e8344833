// The work of the program preview: from the bytes of a file to what is printed, at the fronts of line and out.
#![tactic(auto)]

ghost use Rattle.std.specs.Prelude.{◌≡◌, ◌≤◌, length};
ghost use Rattle.replies.specs.Reply.{Fronts, Leaves};
ghost use Rattle.preview_command.specs.Texts.{words_line, preview_reply, counts_line, answer_line};

use load::{Counts, Judgement, LoadAnswer};
use replies::Report;

// Writes the counts of a file that loads. The answer is the length of the line.
fn write_counts(line: &mut [u8], k: Counts) -> usize
    requires { 128 ≤ length line.old }
    ensures { Fronts (counts_line k) line.old result line.new }
{
    let row = [k.m, k.i, k.l, k.o, k.a, k.b, k.c];
    let at = output::put(line, 0, b"loads ");
    output::put_row(&row, 0, 7, line, at)
}

// Writes what load answers. The answer is the length of the line.
pub fn write_answer(line: &mut [u8], answer: LoadAnswer) -> usize
    requires { 128 ≤ length line.old }
    ensures { Fronts (answer_line answer) line.old result line.new }
{
    match answer {
        LoadAnswer::Loaded(k) => write_counts(line, k),
        LoadAnswer::Refused(n) => replies::write_refusal(line, n),
    }
}

// Writes the words needed, where they are known. The answer is the length of the line.
fn write_needed(out: &mut [u8], needed: usize) -> usize
    requires { (32 ≤ length out.old) × (needed ≤ 33032) }
    ensures { Fronts (words_line needed) out.old result out.new }
{
    if needed == 0 {
        return 0;
    }
    replies::write_line(out, b"words ", needed as u32)
}

// Writes what a preview answers.
pub fn write_judgement(judgement: Judgement, out: &mut [u8], line: &mut [u8]) -> Report
    requires { (judgement.needed ≤ 33032) × (32 ≤ length out.old) × (128 ≤ length line.old) }
    ensures { Fronts (answer_line judgement.answer) line.old result.line line.new
        × Fronts (words_line judgement.needed) out.old result.out out.new }
{
    let answer = judgement.answer;
    let needed = judgement.needed;
    let said = write_answer(line, answer);
    let written = write_needed(out, needed);
    Report {
        line: said,
        out: written,
    }
}

// Previews the load of a file.
pub fn preview(file: &[u8], m: &[u32], out: &mut [u8], line: &mut [u8]) -> Report
    requires { (length m.now ≡ 33032) × (32 ≤ length out.old) × (128 ≤ length line.old) }
    ensures { Leaves (preview_reply file.now) line.old out.old result line.new out.new }
{
    write_judgement(load::preview(file, m), out, line)
}
