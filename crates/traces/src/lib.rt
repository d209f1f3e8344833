// From the record of a state back to the free bits that led to it.
#![tactic(auto)]

ghost use Rattle.std.specs.Prelude.{◌≡◌, ℕ, suc, ◌+◌, ◌*◌, ◌^◌, ◌≤◌, ◌<◌, length};
ghost use Rattle.aiger.specs.Bits.{nonzero};
ghost use Rattle.aiger.specs.Frames.{free_bit};
ghost use Rattle.states.specs.Trace.{Trace};
ghost use Rattle.enumeration.specs.Frame.{FreeBits};
ghost use Rattle.traces.specs.Digits.{Digits};

// Leaves in word 0 of trace the start place, in word u + 1 the row of frame u: the prefix of record e, of the layer of frame t, then row.
// A state has `width` words.
pub fn walk(records: &[u32], width: usize, t: usize, e: usize, row: usize, trace: &mut [u32])
    requires t_bound { (t ≤ 255) × (257 ≤ length trace.old) × (row < 4294967296) × ((width + 4) * e + (width + 4) ≤ length records.now) }
    requires by_index { (rows : ℕ) × (y : ℕ) × (row < rows) × Trace rows width records.now t e y }
    ensures { (rows y : ℕ) → Trace rows width records.now t e y → row < rows
        → Digits rows trace.new (suc t) (y * rows + row) }
{
    let stride = width + 4;
    trace[t + 1] = row as u32;
    let mut i = e;
    let mut u = t;
    // A while: u counts down to frame 0 as i goes from record to record.
    while 0 < u {
        let at = stride * i;
        trace[u] = records[at + 3];
        i = records[at + 2] as usize;
        u -= 1;
    }
    trace[0] = records[stride * i + 3];
}

// Free bit j of the sequence whose start place and rows are in trace.
fn free_bit(trace: &[u32], free: usize, width: usize, j: usize) -> u32
    requires { (257 ≤ length trace.now) × (free ≤ 16) × (width ≤ 16) × (j < free + width * 256) }
    ensures { (t x : ℕ) → Digits (2 ^ width) trace.now (suc t) x → j < free + width * (t + 1) → nonzero result
        ≡ free_bit (free + width * (t + 1)) x j }
{
    if j < free {
        return (trace[0] >> (free - 1 - j)) % 2;
    }
    let u = (j - free) / width;
    let i = (j - free) % width;
    (trace[u + 1] >> (width - 1 - i)) % 2
}

// Writes the first n free bits.
pub fn put_trace(trace: &[u32], free: usize, width: usize, n: usize, work: &mut [u32])
    requires { (257 ≤ length trace.now) × (free ≤ 16) × (width ≤ 16) × (n ≤ free + width * 256) × (n ≤ length work.old) }
    ensures { (t x : ℕ) → Digits (2 ^ width) trace.now (suc t) x → n ≡ free + width * (t + 1) → FreeBits n x work.new }
{
    for j in 0..n {
        work[j] = free_bit(trace, free, width, j);
    }
}
