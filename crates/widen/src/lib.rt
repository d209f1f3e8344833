// Widening: `x` in a witness wherever every completion still hits, from the last bit to the first, until there are 16.
#![tactic(auto)]

ghost use Rattle.std.specs.Prelude.{◌≡◌, ◌++◌, ◌≤◌, ◌<◌, T, length, get_or, take, drop};
ghost use Rattle.completions.specs.Either.{eithers, is_bit, all_pass, shows, widen_at, widen_below, widened};
ghost use Rattle.aiger.specs.Operations.{front};
ghost use Rattle.completions.specs.Operations.{Widened};
ghost use Rattle.layout.specs.Words.{circuit_in};
ghost use Rattle.blocks.specs.Runs.{Posed};
ghost use Rattle.pinned_runs.specs.Obeys.{pinned_shows, PinnedWidened};
ghost use Rattle.widen.specs.Answer.{answered};

use blocks::{Instance, Question};
use replay::Reading;

// What widening answers: the length of the text.
#[derive(Clone, Copy)]
pub enum WidenAnswer {
    Length(usize),
    Refused(u32),
}

// Whether a byte is a bit.
fn is_bit(byte: u8) -> bool
    ensures { result ≡ is_bit byte }
{
    (byte == b'0') | (byte == b'1')
}

// Whether every completion of a body hits. Where there is more than one block of them, a three-valued pass may see it at once.
fn every_hit(
    m: &[u32],
    order: &[u32],
    w: Instance,
    body: &[u8],
    values: &mut [u64],
    state: &mut [u64],
) -> bool
    requires posed { Posed m.now order.now w body.now (length values.old) }
    requires in_bounds { 1024 ≤ length state.old }
    ensures { result ≡ all_pass (shows (circuit_in m.now) w.q.bad) body.now }
{
    let layout = w.layout;
    let q = w.q;
    if 6 < q.eithers {
        if ternary::every_completion(m, layout, order, q, body) {
            return true;
        }
    }
    blocks::every_completion(m, order, w, body, true, values, state)
}

// Puts `x` in place of byte i of a body all of whose completions hit, where it is a bit, every completion still hits, and there are fewer
// than 16. The completions that have the other bit decide. The answer is the number of x.
fn widen_at(
    m: &[u32],
    order: &[u32],
    w: Instance,
    i: usize,
    body: &mut [u8],
    values: &mut [u64],
    state: &mut [u64],
) -> usize
    requires posed { Posed m.now order.now w body.old (length values.old) }
    requires in_bounds { (1024 ≤ length state.old) × (i < length body.old) }
    requires t { T (all_pass (shows (circuit_in m.now) w.q.bad) body.old) }
    ensures { (body.new ≡ widen_at (shows (circuit_in m.now) w.q.bad) body.old i)
        × (result ≡ eithers body.new) }
{
    let q = w.q;
    let count = q.eithers;
    if 15 < count {
        return count;
    }
    let byte = body[i];
    if !is_bit(byte) {
        return count;
    }
    body[i] = 97 - byte;
    if every_hit(m, order, w, body, values, state) {
        body[i] = b'x';
        return count + 1;
    }
    body[i] = byte;
    count
}

// Widens a body all of whose completions hit and obey the pins. A held input is passed over.
fn widen_body(
    m: &[u32],
    order: &[u32],
    w: Instance,
    own: &[u8],
    body: &mut [u8],
    values: &mut [u64],
    state: &mut [u64],
)
    requires posed { Posed m.now order.now w body.old (length values.old) }
    requires in_bounds { 1024 ≤ length state.old }
    requires t { T (all_pass (pinned_shows (circuit_in m.now) (λ i. get_or own.now i 2) w.q.bad) body.old) }
    ensures { body.new
        ≡ widen_below (pinned_shows (circuit_in m.now) (λ i. get_or own.now i 2) w.q.bad) body.old
        (length body.old) }
{
    let layout = w.layout;
    let q = w.q;
    let bad = q.bad;
    let frames = q.frames;
    let rows = pinned_runs::rows_of(layout, frames);
    let mut eithers = q.eithers;
    let mut i = body.len();
    while 0 < i {
        i -= 1;
        if 1 < pinned_runs::pin_of(rows, own, i) {
            let next = Question {
                bad,
                frames,
                eithers,
            };
            let at = Instance { layout, q: next };
            eithers = widen_at(m, order, at, i, body, values, state);
        }
    }
}

// Widens a body where every completion hits and obeys the pins; else it stays.
fn widen_hits(m: &[u32], order: &[u32], w: Instance, own: &[u8], body: &mut [u8])
    requires { Posed m.now order.now w body.old 4097 }
    ensures { body.new ≡ widened (pinned_shows (circuit_in m.now) (λ i. get_or own.now i 2) w.q.bad)
        body.old }
{
    let layout = w.layout;
    let q = w.q;
    let rows = pinned_runs::rows_of(layout, q.frames);
    if !pinned_runs::agree(rows, own, body, false) {
        return;
    }
    let mut values = [0u64; 4097];
    let mut state = [0u64; 1024];
    if !every_hit(m, order, w, body, &mut values, &mut state) {
        return;
    }
    widen_body(m, order, w, own, body, &mut values, &mut state);
}

// Copies a witness, whose body begins at `start`, to the front of out and widens the copy.
fn widen_copy(
    m: &[u32],
    order: &[u32],
    w: Instance,
    start: usize,
    own: &[u8],
    text: &[u8],
    out: &mut [u8],
)
    requires posed { Posed m.now order.now w (drop start text.now) 4097 }
    requires start_in_bounds { (start ≤ length text.now) × (length text.now ≤ length out.old) }
    ensures { out.new
        ≡ front
        (take start text.now
        ++ widened (pinned_shows (circuit_in m.now) (λ i. get_or own.now i 2) w.q.bad)
        (drop start text.now))
        out.old }
{
    let end = text.len();
    out[..end].copy_from_slice(text);
    widen_hits(m, order, w, own, &mut out[start..end]);
}

// Widening under pins: own has a byte for each input, and an input without one is free.
pub fn widen_under(m: &[u32], own: &[u8], text: &[u8], out: &mut [u8]) -> WidenAnswer
    ensures { PinnedWidened m.now (λ i. get_or own.now i 2) text.now out.old (answered result)
        out.new }
{
    let mut order = [0u32; 3072];
    match replay::read_held(m, text, &mut order) {
        Reading::Refused(n) => WidenAnswer::Refused(n),
        Reading::Read(start, w) => {
            if out.len() < text.len() {
                return WidenAnswer::Refused(13);
            }
            widen_copy(m, &order, w, start, own, text, out);
            WidenAnswer::Length(text.len())
        }
    }
}

// Writes a witness of the circuit in m, widened, to the front of out.
pub fn widen(m: &[u32], text: &[u8], out: &mut [u8]) -> WidenAnswer
    ensures { Widened m.now text.now out.old (answered result) out.new }
{
    widen_under(m, &text[0..0], text, out)
}
