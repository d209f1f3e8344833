// The operation waveform: what the wires of a circuit are in each frame of a witness, as a value change dump (VCD).
#![tactic(auto)]

ghost use Rattle.std.specs.Prelude.{◌≡◌, cond, ◌+◌, ◌≤◌, length};
ghost use Rattle.layout.specs.Words.{circuit_in};
ghost use Rattle.frames.specs.Lanes.{Ready};
ghost use Rattle.blocks.specs.Runs.{Posed};
ghost use Rattle.samples.specs.Passes.{PassFits};
ghost use Rattle.waveform.specs.Waveform.{Waveformed};
ghost use Rattle.waveform.specs.Blocks.{BlocksLeft, ShownAs};
ghost use Rattle.waveform.specs.Answer.{answered};

use blocks::Instance;
use layout::Layout;
use replay::Reading;
use samples::Pass;

// The length of the text, or the number of the refusal.
#[derive(Clone, Copy)]
pub enum WaveformAnswer {
    Length(usize),
    Refused(u32),
}

// Writes the samples block after block, of which there are all.block. values and state are scratch.
fn write_blocks(
    m: &[u32],
    order: &[u32],
    body: &[u8],
    all: Pass,
    out: &mut [u8],
    values: &mut [u64],
    state: &mut [u64],
)
    requires ready { Ready m.now all.layout order.now (length values.old) × (1024 ≤ length state.old) }
    requires pass_fits { PassFits m.now body.now all out.old }
    ensures { BlocksLeft (circuit_in m.now) body.now all out.old out.new }
{
    let layout = all.layout;
    let mut block: u64 = 0;
    while block < all.block {
        let pass = Pass {
            layout,
            wires: all.wires,
            frames: all.frames,
            block,
            at: all.at,
        };
        samples::write_samples(m, order, body, pass, out, values, state);
        block += 1;
    }
}

// The same, with memory of its own for the words.
fn show_blocks(m: &[u32], order: &[u32], body: &[u8], all: Pass, out: &mut [u8])
    requires ready { Ready m.now all.layout order.now 4097 }
    requires pass_fits { PassFits m.now body.now all out.old }
    ensures { BlocksLeft (circuit_in m.now) body.now all out.old out.new }
{
    let mut values = [0u64; 4097];
    let mut state = [0u64; 1024];
    write_blocks(m, order, body, all, out, &mut values, &mut state)
}

// How many wires are shown: all, or the inputs alone.
fn wire_count(layout: Layout, only: bool) -> usize
    requires { layout.i + layout.l + layout.o + layout.b + layout.c ≤ 1376 }
    ensures { result ≡ cond only layout.i (layout.i + layout.l + layout.o + layout.b + layout.c) }
{
    if only {
        return layout.i;
    }
    layout.i + layout.l + layout.o + layout.b + layout.c
}

// Puts the text for a witness that was read at the front of out, where there is room.
fn show(
    m: &[u32],
    order: &[u32],
    only: bool,
    w: Instance,
    body: &[u8],
    out: &mut [u8],
) -> WaveformAnswer
    requires { Posed m.now order.now w body.now 4097 }
    ensures { ShownAs (circuit_in m.now) only (w.q.bad, body.now) out.old result out.new }
{
    let layout = w.layout;
    let q = w.q;
    let n = wire_count(layout, only);
    let length = vcd::dump_length(layout, n, q.frames);
    if out.len() < length {
        return WaveformAnswer::Refused(13);
    }
    let at = vcd::write_header(layout, n, out, 0);
    let all = Pass {
        layout,
        wires: n,
        frames: q.frames,
        block: blocks::block_count(q.eithers),
        at,
    };
    show_blocks(m, order, body, all, out);
    WaveformAnswer::Length(length)
}

// The operation waveform: puts the run of a witness of the circuit in m as text at the front of out, all wires or the inputs alone.
pub fn waveform(m: &[u32], text: &[u8], only: bool, out: &mut [u8]) -> WaveformAnswer
    ensures { Waveformed m.now only text.now out.old (answered result) out.new }
{
    let mut order = [0u32; 3072];
    match replay::read_held(m, text, &mut order) {
        Reading::Refused(n) => WaveformAnswer::Refused(n),
        Reading::Read(start, w) => show(m, &order, only, w, &text[start..], out),
    }
}
