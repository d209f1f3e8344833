// Replay: whether the completions of a witness start as the resets say and hit in their last frame.
#![tactic(auto)]

ghost use Rattle.std.specs.Prelude.{◌≡◌, List, ℕ, ◌≤◌, length, get_or, drop};
ghost use Rattle.aiger.specs.Lists.{same};
ghost use Rattle.aiger.specs.Text.{bytes};
ghost use Rattle.aiger.specs.Circuit.{Circuit};
ghost use Rattle.completions.specs.Either.{eithers};
ghost use Rattle.completions.specs.Operations.{EitherReplayed};
ghost use Rattle.layout.specs.Words.{circuit_in};
ghost use Rattle.completions.specs.Forms.{is_symbol, SameForm};
ghost use Rattle.witness.specs.Line.{LineAt};
ghost use Rattle.blocks.specs.Runs.{Posed};
ghost use Rattle.pinned_runs.specs.Obeys.{PinnedReplayed};
ghost use Rattle.replay.specs.Answer.{answered, recounted, Judged, demoted_answer, SettledJudged, JudgedUnder};
ghost use Rattle.replay.specs.Texts.{CountsOf, Counted, FramesRead, WitnessRead, HeldRead};

use blocks::{Instance, Question};
use layout::Layout;
use witness::{Bits, Heading};

// What replay answers.
#[derive(Clone, Copy)]
pub enum ReplayAnswer {
    All,
    No,
    Mixed,
    Refused(u32),
}

// How many rows stand in a text.
#[derive(Clone, Copy)]
enum Rows {
    Read(usize),
    Malformed,
}

// A witness that was read: where its body, the lines after line `b`, begins, and what is asked of it.
#[derive(Clone, Copy)]
pub enum Reading {
    Read(usize, Instance),
    Refused(u32),
}

// Whether a byte is a bit or `x`.
fn is_symbol(byte: u8) -> bool
    ensures { result ≡ is_symbol byte }
{
    (byte == b'0') | (byte == b'1') | (byte == b'x')
}

// A line of count bits at `at`, where `x` may stand for a bit: in every text of the same form, so in every completion.
fn read_symbols(text: &[u8], at: usize, count: usize) -> Bits
    ensures { (u : List ℕ) → SameForm text.now u → LineAt u at count result }
{
    if text.len() <= at {
        return Bits::Malformed;
    }
    if text.len() - at <= count {
        return Bits::Malformed;
    }
    let mut i: usize = 0;
    while i < count {
        if !is_symbol(text[at + i]) {
            return Bits::Malformed;
        }
        i += 1;
    }
    if text[at + count] != b'\n' {
        return Bits::Malformed;
    }
    Bits::Read(at + count + 1)
}

// Whether the line `.` stands at `at` and ends the text, in every text of the same form.
fn is_last(text: &[u8], at: usize) -> bool
    ensures { (u : List ℕ) → SameForm text.now u → result ≡ same (drop at u) (bytes ".\n") }
{
    if text.len() <= at {
        return false;
    }
    if text.len() - at != 2 {
        return false;
    }
    if text[at] != b'.' {
        return false;
    }
    text[at + 1] == b'\n'
}

// How many rows of count bits stand at `at`, up to the line `.` that ends the text: at most 256.
fn count_rows(text: &[u8], at: usize, count: usize) -> Rows
    requires { at ≤ length text.now }
    ensures { (u : List ℕ) → SameForm text.now u → Counted u at count result }
{
    let mut next = at;
    let mut rows = 0;
    while rows < 256 {
        if is_last(text, next) {
            return Rows::Read(rows);
        }
        let Bits::Read(after) = read_symbols(text, next, count) else {
            return Rows::Malformed;
        };
        next = after;
        rows += 1;
    }
    if is_last(text, next) {
        return Rows::Read(rows);
    }
    Rows::Malformed
}

// How many frames a body has, of l start values and rows of i bits.
fn read_frames(body: &[u8], l: usize, i: usize) -> Rows
    ensures { (u : List ℕ) → SameForm body.now u → FramesRead l i u result }
{
    let Bits::Read(rows) = read_symbols(body, 0, l) else {
        return Rows::Malformed;
    };
    let Rows::Read(frames) = count_rows(body, rows, i) else {
        return Rows::Malformed;
    };
    if frames == 0 {
        return Rows::Malformed;
    }
    Rows::Read(frames)
}

// How many `x` a text holds.
fn count_eithers(text: &[u8]) -> usize
    ensures { result ≡ eithers text.now }
{
    let mut count = 0;
    let mut i = 0;
    while i < text.len() {
        count += blocks::either_of(text[i]);
        i += 1;
    }
    count
}

// Reads a witness of a circuit with this layout.
fn read_witness(layout: Layout, text: &[u8]) -> Reading
    ensures { (c : Circuit) → CountsOf c layout → WitnessRead c layout text.now result }
{
    let Heading::Read(b, start) = witness::read_heading(text) else {
        return Reading::Refused(14);
    };
    if layout.b as u64 <= b {
        return Reading::Refused(14);
    }
    let body = &text[start..];
    let Rows::Read(frames) = read_frames(body, layout.l, layout.i) else {
        return Reading::Refused(14);
    };
    let eithers = count_eithers(body);
    if 16 < eithers {
        return Reading::Refused(16);
    }
    let q = Question {
        bad: b as usize,
        frames,
        eithers,
    };
    Reading::Read(start, Instance { layout, q })
}

// Reads a witness of the circuit that m holds; order then begins with its gates, operands before gates, and is after them as it was. Where m
// holds none the answer is 9, and order is all 0.
pub fn read_held(m: &[u32], text: &[u8], order: &mut [u32]) -> Reading
    requires { 3072 ≤ length order.old }
    ensures { HeldRead m.now text.now order.old order.new result }
{
    let Some(layout) = circuit::held_in(m, order) else {
        return Reading::Refused(9);
    };
    read_witness(layout, text)
}

// Whether all completions of a body show a hit, none, or some.
fn judge_completions(
    m: &[u32],
    order: &[u32],
    w: Instance,
    body: &[u8],
    values: &mut [u64],
    state: &mut [u64],
) -> ReplayAnswer
    requires posed { Posed m.now order.now w body.now (length values.old) }
    requires in_bounds { 1024 ≤ length state.old }
    ensures { Judged (circuit_in m.now) w.q.bad body.now result }
{
    if blocks::every_completion(m, order, w, body, true, values, state) {
        return ReplayAnswer::All;
    }
    if blocks::every_completion(m, order, w, body, false, values, state) {
        return ReplayAnswer::No;
    }
    ReplayAnswer::Mixed
}

// The same, with memory of its own for the words.
fn judge_alone(m: &[u32], order: &[u32], w: Instance, body: &[u8]) -> ReplayAnswer
    requires { Posed m.now order.now w body.now 4097 }
    ensures { Judged (circuit_in m.now) w.q.bad body.now result }
{
    let mut values = [0u64; 4097];
    let mut state = [0u64; 1024];
    judge_completions(m, order, w, body, &mut values, &mut state)
}

// What an answer becomes where some completions differ from a pin.
fn demote(answer: ReplayAnswer) -> ReplayAnswer
    ensures { answered result ≡ demoted_answer (answered answer) }
{
    match answer {
        ReplayAnswer::All => ReplayAnswer::Mixed,
        ReplayAnswer::No => ReplayAnswer::No,
        ReplayAnswer::Mixed => ReplayAnswer::Mixed,
        ReplayAnswer::Refused(n) => ReplayAnswer::Refused(n),
    }
}

// Judges a body whose `x` are to be counted.
fn judge_counted(m: &[u32], order: &[u32], w: Instance, body: &[u8]) -> ReplayAnswer
    requires { Posed m.now order.now (recounted w body.now) body.now 4097 }
    ensures { Judged (circuit_in m.now) w.q.bad body.now result }
{
    let layout = w.layout;
    let q = w.q;
    let bad = q.bad;
    let frames = q.frames;
    let eithers = count_eithers(body);
    let next = Question {
        bad,
        frames,
        eithers,
    };
    judge_alone(m, order, Instance { layout, q: next }, body)
}

// Judges a body by a copy with the pin's bit for each `x` that is held.
fn judge_copy(
    m: &[u32],
    order: &[u32],
    w: Instance,
    own: &[u8],
    body: &[u8],
    copy: &mut [u8],
) -> ReplayAnswer
    requires posed { Posed m.now order.now w body.now 4097 }
    requires body_in_bounds { length body.now ≤ length copy.old }
    ensures { SettledJudged (circuit_in m.now) (λ i. get_or own.now i 2) w.q.bad w.q.frames body.now result }
{
    let layout = w.layout;
    let q = w.q;
    let end = body.len();
    let rows = pinned_runs::rows_of(layout, q.frames);
    pinned_runs::copy_settled(rows, own, body, copy);
    judge_counted(m, order, w, &copy[0..end])
}

// The same, with memory of its own for the copy.
fn judge_settled(m: &[u32], order: &[u32], w: Instance, own: &[u8], body: &[u8]) -> ReplayAnswer
    requires { Posed m.now order.now w body.now 4097 }
    ensures { SettledJudged (circuit_in m.now) (λ i. get_or own.now i 2) w.q.bad w.q.frames body.now result }
{
    let mut copy = [0u8; 66825];
    judge_copy(m, order, w, own, body, &mut copy)
}

// Whether all completions of a body show a hit that obeys the pins, none, or some.
fn judge_under(m: &[u32], order: &[u32], w: Instance, own: &[u8], body: &[u8]) -> ReplayAnswer
    requires { Posed m.now order.now w body.now 4097 }
    ensures { JudgedUnder (circuit_in m.now) (λ i. get_or own.now i 2) w.q.bad body.now result }
{
    let layout = w.layout;
    let q = w.q;
    let rows = pinned_runs::rows_of(layout, q.frames);
    if !pinned_runs::agree(rows, own, body, true) {
        return ReplayAnswer::No;
    }
    if pinned_runs::agree(rows, own, body, false) {
        return judge_alone(m, order, w, body);
    }
    demote(judge_settled(m, order, w, own, body))
}

// Replay under pins: own has a byte for each input, and an input without one is free.
pub fn replay_under(m: &[u32], own: &[u8], text: &[u8]) -> ReplayAnswer
    ensures { PinnedReplayed m.now (λ i. get_or own.now i 2) text.now (answered result) }
{
    let mut order = [0u32; 3072];
    match read_held(m, text, &mut order) {
        Reading::Refused(n) => ReplayAnswer::Refused(n),
        Reading::Read(start, w) => judge_under(m, &order, w, own, &text[start..]),
    }
}

// Whether a text is a witness of the circuit in m, and if so which of its completions show a hit.
pub fn replay(m: &[u32], text: &[u8]) -> ReplayAnswer
    ensures { EitherReplayed m.now text.now (answered result) }
{
    replay_under(m, &text[0..0], text)
}
