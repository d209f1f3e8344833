// The samples of a block of completions, written over those of the blocks before it: a wire has 0 or 1 where all completions so far have
// it, else x.
#![tactic(auto)]

ghost use Rattle.std.specs.Prelude.{◌≡◌, ℕ, ◌+◌, ◌*◌, ◌≤◌, ◌<◌, length};
ghost use Rattle.layout.specs.Words.{circuit_in};
ghost use Rattle.frames.specs.Lanes.{Ready};
ghost use Rattle.output.specs.Output.{Room};
ghost use Rattle.vcd.specs.Text.{value_lines, sample};
ghost use Rattle.samples.specs.Passes.{level_in, low, Rewritten, Wired, PassFits, Sampled, SamplesLeft};

use blocks::Cursor;
use layout::Layout;

// One pass over the samples: where the parts of the circuit stand, how many wires are shown, how many frames there are, the block, and
// where the samples begin.
#[derive(Clone, Copy)]
pub struct Pass {
    pub layout: Layout,
    pub wires: usize,
    pub frames: usize,
    pub block: u64,
    pub at: usize,
}

// Writes the levels of the first n wires, joined with those that stand there where there was a block before.
fn write_values(
    m: &[u32],
    layout: Layout,
    values: &[u64],
    n: usize,
    block: u64,
    out: &mut [u8],
    at: usize,
) -> usize
    requires { Wired m.now layout (length values.now) n × (at + 4 * n ≤ length out.old) }
    ensures { Rewritten (λ f. value_lines f 0 n) block (level_in m.now values.now) out.old at result out.new }
{
    let mut end = at;
    let mut k: usize = 0;
    let mut left = n;
    while 0 < left {
        let l = levels::literal_at(m, layout, k);
        let v = l.0.0 as usize;
        let new = levels::level_of(values[v], l);
        let level = levels::after_block(block, out[end], new);
        end = vcd::write_value(out, end, k, level);
        k += 1;
        left -= 1;
    }
    end
}

// Writes time mark t and the levels after it.
fn write_sample(m: &[u32], values: &[u64], pass: Pass, t: u32, out: &mut [u8], at: usize) -> usize
    requires { Wired m.now pass.layout (length values.now) pass.wires × Room out.old at (sample low pass.wires t) }
    ensures { Rewritten (λ f. sample f pass.wires t) pass.block (level_in m.now values.now)
        out.old at result out.new }
{
    let layout = pass.layout;
    let next = vcd::write_time(out, at, t);
    write_values(m, layout, values, pass.wires, pass.block, out, next)
}

// Writes a sample for each frame, and the time mark that ends the last. After the first block, samples of some levels stand there. values
// and state are scratch: what they hold afterwards is left open.
pub fn write_samples(
    m: &[u32],
    order: &[u32],
    body: &[u8],
    pass: Pass,
    out: &mut [u8],
    values: &mut [u64],
    state: &mut [u64],
) -> usize
    requires ready { Ready m.now pass.layout order.now (length values.old) × (1024 ≤ length state.old) }
    requires pass_fits { PassFits m.now body.now pass out.old × Sampled pass.block pass.at pass.wires pass.frames out.old }
    ensures { SamplesLeft (circuit_in m.now) body.now pass out.old result out.new }
{
    let layout = pass.layout;
    let block = pass.block;
    let width = layout.i + 1;
    let mut seen = blocks::put_starts(m, layout, order, body, block, values);
    let mut end = pass.at;
    let mut row = layout.l + 1;
    let mut t: u32 = 0;
    let mut left = pass.frames;
    while 0 < left {
        seen = blocks::put_frame(
            m,
            layout,
            order,
            body,
            Cursor {
                at: row,
                seen,
                block,
            },
            values,
        );
        end = write_sample(m, values, pass, t, out, end);
        frames::advance(m, layout, order, values, state);
        row += width;
        t += 1;
        left -= 1;
    }
    vcd::write_time(out, end, t)
}
