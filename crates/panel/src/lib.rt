// The work of the resident program's commands: what is to be printed is left at the fronts of line and out.
#![tactic(auto)]

ghost use Rattle.std.specs.Prelude.{◌≡◌, [], ◌≤◌, length};
ghost use Rattle.job.specs.Replies.{told_length};
ghost use Rattle.replies.specs.Reply.{Fronts, Leaves};
ghost use Rattle.search_command.specs.Texts.{said_words};
ghost use Rattle.place_decision.specs.Reach.{place_chosen};
ghost use Rattle.search.specs.Chosen as Search;
ghost use Rattle.fold.specs.Chosen as Fold;
ghost use Rattle.call_forms.specs.Forms.{PinSet, UserSearched, UserSearchedFrom, UserFolded, UserWritten, UserGenerated};
ghost use Rattle.panel.specs.Answers.{
  pin_words,
  text_words,
  no_text,
  text_length,
  Reported,
  LoadReported,
  Queried,
  preview_reply_to,
};

use calls::PinAnswer;
use fold::{FoldAnswer, Target};
use generate::GenerateAnswer;
use panel_lines::Query;
use place_limits::PlaceTerms;
use replies::Report;
use search::{SearchAnswer, Terms};
use write::WriteAnswer;

// Loads a file.
pub fn load(user: u64, file: &[u8], m: &mut [u32], pins: &mut [u8], line: &mut [u8]) -> Report
    requires { 128 ≤ length line.old }
    ensures { LoadReported user file.now m.old pins.old line.old result m.new pins.new
        line.new }
{
    let answer = calls::load(user, pins, m, file);
    let length = preview_command::write_answer(line, answer);
    Report {
        line: length,
        out: 0,
    }
}

// Previews the load of a file.
pub fn preview(user: u64, file: &[u8], m: &[u32], out: &mut [u8], line: &mut [u8]) -> Report
    requires { (length m.now ≡ 33032) × (32 ≤ length out.old) × (128 ≤ length line.old) }
    ensures { Leaves (preview_reply_to user file.now) line.old out.old result line.new out.new }
{
    preview_command::write_judgement(calls::preview(user, m, file), out, line)
}

// Sets a pin.
fn pin(user: u64, input: u64, value: u64, m: &[u32], pins: &mut [u8], line: &mut [u8]) -> Report
    requires { 128 ≤ length line.old }
    ensures { Reported (λ a. PinSet m.now user input value pins.old a pins.new) pin_words no_text
        line.old result line.new [] }
{
    match calls::set_pin(user, pins, m, input, value) {
        PinAnswer::Refused(n) => replies::refuse(line, n),
        PinAnswer::Set => {
            let length = output::put(line, 0, b"set\n");
            Report {
                line: length,
                out: 0,
            }
        }
    }
}

// What is printed of the answer of a search: a line, and the witness that stands in the output.
fn report_search(answer: SearchAnswer, line: &mut [u8]) -> Report
    requires { 128 ≤ length line.old }
    ensures { Fronts (said_words (Search.said answer)) line.old result.line line.new × (result.out ≡ told_length (Search.said answer)) }
{
    let witness = job::shown_length(answer);
    let length = search_command::write_answer(line, answer);
    Report {
        line: length,
        out: witness,
    }
}

// Searches under the user's pins.
fn search(
    user: u64,
    q: Terms,
    m: &[u32],
    pins: &[u8],
    work: &mut [u32],
    out: &mut [u8],
    line: &mut [u8],
) -> Report
    requires { 128 ≤ length line.old }
    ensures { Reported
        (λ a.
        UserSearched Search.chosen m.now pins.now user q.b q.k q.d work.old out.old a
        work.new out.new)
        said_words told_length line.old result line.new out.new }
{
    let answer = calls::search(user, pins, m, q, work, out);
    report_search(answer, line)
}

// Searches a frame from a place under the user's pins.
fn search_from(
    user: u64,
    q: PlaceTerms,
    m: &[u32],
    pins: &[u8],
    work: &mut [u32],
    out: &mut [u8],
    line: &mut [u8],
) -> Report
    requires { 128 ≤ length line.old }
    ensures { Reported
        (λ a.
        UserSearchedFrom place_chosen m.now pins.now user q.b q.t q.place q.d work.old
        out.old a work.new out.new)
        said_words told_length line.old result line.new out.new }
{
    let answer = calls::search_from(user, pins, m, q, work, out);
    report_search(answer, line)
}

// Folds under the user's pins.
fn fold(
    user: u64,
    f: Target,
    m: &[u32],
    pins: &[u8],
    work: &mut [u32],
    out: &mut [u8],
    line: &mut [u8],
) -> Report
    requires { 128 ≤ length line.old }
    ensures { Reported
        (λ a.
        UserFolded Fold.chosen m.now pins.now user f.b f.t work.old out.old a
        work.new
        out.new)
        text_words text_length line.old result line.new out.new }
{
    match calls::fold(user, pins, m, f, work, out) {
        FoldAnswer::Length(n) => Report { line: 0, out: n },
        FoldAnswer::Refused(n) => replies::refuse(line, n),
    }
}

// Writes the circuit in a form.
fn write(user: u64, form: u64, m: &[u32], out: &mut [u8], line: &mut [u8]) -> Report
    requires { 128 ≤ length line.old }
    ensures { Reported (λ a. UserWritten m.now user form out.old a out.new) text_words text_length
        line.old result
        line.new out.new }
{
    match calls::write(user, m, form, out) {
        WriteAnswer::Length(n) => Report { line: 0, out: n },
        WriteAnswer::Refused(n) => replies::refuse(line, n),
    }
}

// Writes the circuit of a seed and counts.
fn generate(user: u64, seed: u64, i: u64, l: u64, a: u64, out: &mut [u8], line: &mut [u8]) -> Report
    requires { 128 ≤ length line.old }
    ensures { Reported (λ answer. UserGenerated user seed i l a out.old answer out.new) text_words text_length
        line.old result
        line.new out.new }
{
    match calls::generate(user, seed, i, l, a, out) {
        GenerateAnswer::Length(n) => Report {
            line: 0,
            out: n as usize,
        },
        GenerateAnswer::Refused(n) => replies::refuse(line, n),
    }
}

// Does what a query asks.
pub fn query(
    user: u64,
    q: Query,
    m: &[u32],
    work: &mut [u32],
    pins: &mut [u8],
    out: &mut [u8],
    line: &mut [u8],
) -> Report
    requires { 128 ≤ length line.old }
    ensures { Queried q user
        (record { memory = m.now; work = work.old; pins = pins.old })
        out.old line.old result
        (record { memory = m.now; work = work.new; pins = pins.new })
        out.new line.new }
{
    match q {
        Query::Pin(input, value) => pin(user, input, value, m, pins, line),
        Query::Search(b, k, d) => search(user, Terms { b, k, d }, m, pins, work, out, line),
        Query::Fold(b, t) => fold(user, Target { b, t }, m, pins, work, out, line),
        Query::Write(form) => write(user, form, m, out, line),
        Query::Generate(seed, i, l, a) => generate(user, seed, i, l, a, out, line),
        Query::SearchFrom(b, t, place, d) => {
            search_from(
                user,
                PlaceTerms { b, t, place, d },
                m,
                pins,
                work,
                out,
                line,
            )
        }
    }
}
