// The frames of a search by layers of states, until one has a hit, no state is new, or there are too many states.
#![tactic(auto)]

ghost use Rattle.std.specs.Prelude.{◌≡◌, List, [], ℕ, ◌+◌, ◌-◌, ◌*◌, ◌/◌, ◌^◌, ◌≤◌, ◌<◌, max, min, length};
ghost use Rattle.aiger.specs.Frames.{size};
ghost use Rattle.aiger.specs.Memory.{Holds};
ghost use Rattle.layout.specs.Words.{word, circuit_in};
ghost use Rattle.layout.specs.Layout.{LayoutOf};
ghost use Rattle.frames.specs.Lanes.{Ready};
ghost use Rattle.enumeration.specs.Frame.{FreeBits};
ghost use Rattle.machine.specs.Layers.{started};
ghost use Rattle.states.specs.Table.{Buckets, Fits, count_of, TallyFits};
ghost use Rattle.states.specs.Trace as trace;
ghost use Rattle.influence.specs.Part.{Listed, Closed, part_in};
ghost use Rattle.influence.specs.Cone.{part_of};
ghost use Rattle.transitions.specs.Transitions.{machine_of};
ghost use Rattle.reachable.specs.Quota.{width, effort, quota, Moderate};
ghost use Rattle.reachable.specs.Layers.{FoundOf, LayersOf};
ghost use Rattle.reachable.specs.Asking.{Regrown, StageFits, Asks};

use layers::{Asked, Layer, Starts};
use layout::Layout;
use states::Table;

// The work that a search by layers may take by a frame: base, and unit for each unit of the frame's size.
#[derive(Clone, Copy)]
pub struct Limit {
    pub base: u64,
    pub unit: u64,
}

// A search by layers: bad line b, frames 0 to k, the first frame of which nothing is known, and the limit of its work.
#[derive(Clone, Copy)]
pub struct Stage {
    pub b: usize,
    pub k: usize,
    pub first: usize,
    pub limit: Limit,
}

// What the frames have: the first frame with a hit; none up to the bound; none at all, however late, as the layer of a frame up to the
// bound shows; or the frame at which there were too many states, and none before it.
// An enum of its own: four outcomes, of which none is a failure.
#[derive(Clone, Copy)]
pub enum Layers {
    Hit(usize),
    Clear,
    Never,
    GaveUp(usize),
}

// The same, with the record and the row of the first hit.
#[derive(Clone, Copy)]
enum Found {
    At(usize, usize, usize),
    Nowhere,
    Ended,
    Left(usize),
}

// A search of a circuit. layout says where its parts stand.
#[derive(Clone, Copy)]
struct Question {
    layout: Layout,
    stage: Stage,
}

// 2 to the power n.
fn power(n: usize) -> usize
    requires { n ≤ 16 }
    ensures { (result ≡ 2 ^ n) × (result ≤ 65536) }
{
    1usize << n
}

// The work for one state.
fn effort(m: &[u32], layout: Layout, kept: &[u32]) -> usize
    requires holds { Holds m.now (circuit_in m.now) }
    requires layout_of { LayoutOf m.now layout }
    requires i_bound { (layout.i ≤ 16) × (length kept.now ≤ 1024) }
    ensures { result ≡ effort (part_in m.now kept.now) }
{
    let gates = layout.a;
    let latches = layout.l;
    let words = layers::blocks(layout.i);
    let rows = power(layout.i);
    let bits = kept.len();
    (gates + latches + 1) * words + (bits + 8) * rows
}

// How many words a state of so many latches has.
fn width(latches: usize) -> usize
    requires { latches ≤ 1024 }
    ensures { result ≡ (latches + 31) / 32 }
{
    (latches + 31) / 32
}

// The lesser of two numbers. It has a contract of its own since that of the library's min speaks of an order, and quota's proof of numbers.
fn lesser(a: u64, b: u64) -> usize
    ensures { result ≡ min a b }
{
    a.min(b) as usize
}

// The later of two frames, for the same reason.
fn later(t: usize, u: usize) -> usize
    ensures { result ≡ max t u }
{
    t.max(u)
}

// How many states may be met by frame t + 1.
fn quota(m: &[u32], layout: Layout, stage: Stage, t: usize, kept: &[u32]) -> usize
    requires holds { Holds m.now (circuit_in m.now) }
    requires layout_of { LayoutOf m.now layout }
    requires t_bound { (t ≤ 255) × (stage.first ≤ 255) × Moderate stage.limit × (length kept.now ≤ 1024) }
    ensures { result ≡ quota (part_in m.now kept.now) stage.first stage.limit t }
{
    if 16 < layout.i {
        return 0;
    }
    if 16 < layout.u {
        return 0;
    }
    let limit = stage.limit;
    let last = later(t, stage.first);
    let size = limits::size(layout, last) as u64;
    let each = effort(m, layout, kept) as u64;
    let stride = width(kept.len()) as u64 + 4;
    lesser(16 * size / stride, (limit.base + limit.unit * size) / each)
}

// Meets the start states, up to quota records, in a table without records.
fn meet_starts(
    m: &[u32],
    layout: Layout,
    table: Table,
    quota: usize,
    records: &mut [u32],
    kept: &[u32],
    state: &mut [u64],
) -> Option<usize>
    requires holds { Holds m.now (circuit_in m.now) }
    requires layout_of { LayoutOf m.now layout }
    requires u_bound { (layout.u ≤ 16) × Fits table quota 0 records.old × Listed (part_in m.now kept.now) × (length kept.now ≤ 1024)
        × (1024 ≤ length state.old) × (table.width ≡ width (part_in m.now kept.now)) }
    ensures { ((rows b : ℕ) → trace.Holds rows 0 0 table quota 0 records.old []
        → trace.Holds rows 0 0 table quota (count_of quota result) records.new
        (started (machine_of (part_in m.now kept.now) b) (2 ^ layout.u)))
        × TallyFits quota result }
{
    let count = power(layout.u);
    let starts = Starts {
        count,
        quota,
        table,
    };
    let width = table.width;
    let mut s = [0u32; 32];
    layers::meet_starts(m, layout, starts, records, kept, state, &mut s[..width])
}

// The table of `count` records with as many buckets as there may be records, where it has less than half as many as records.
fn regrow(records: &mut [u32], table: Table, count: usize, most: usize) -> Table
    requires { Buckets table records.old × (count ≤ most) × ((table.width + 4) * most ≤ length records.old) × (most < 4294967295) }
    ensures { Regrown table count most records.old result records.new }
{
    let width = table.width;
    if count <= 2 * table.buckets {
        return table;
    }
    let wide = Table {
        width,
        buckets: most,
    };
    states::fill(records, wide, count);
    wide
}

// Asks frame after frame, where the quota of frame 0 is not 0. values and state are scratch.
fn ask_frames(
    m: &[u32],
    order: &[u32],
    q: Question,
    records: &mut [u32],
    kept: &[u32],
    values: &mut [u64],
    state: &mut [u64],
) -> Found
    requires ready { Ready m.now q.layout order.now (length values.old) }
    requires asks { Asks m.now kept.now q.stage (length records.old) × (1024 ≤ length state.old) }
    ensures { FoundOf (part_in m.now kept.now) q.stage.b q.stage.first q.stage.limit q.stage.k
        records.new result }
{
    let layout = q.layout;
    let stage = q.stage;
    let b = stage.b;
    let k = stage.k;
    let begun = quota(m, layout, stage, 0, kept);
    let mut table = Table {
        width: width(kept.len()),
        buckets: begun,
    };
    states::fill(records, table, 0);
    let Some(starts) = meet_starts(m, layout, table, begun, records, kept, state) else {
        return Found::Left(0);
    };
    let mut lo = 0;
    let mut hi = starts;
    let mut t = 0;
    while t <= k {
        let most = quota(m, layout, stage, t, kept);
        table = regrow(records, table, hi, most);
        let layer = Layer {
            layout,
            b,
            lo,
            hi,
            quota: most,
            table,
        };
        match layers::ask_layer(m, order, layer, records, values, kept, state) {
            Asked::Hit(e, row) => {
                return Found::At(t, e, row);
            }
            Asked::Full => {
                return Found::Left(t + 1);
            }
            Asked::Next(met) => {
                if met == hi {
                    return Found::Ended;
                }
                lo = hi;
                hi = met;
                t += 1;
            }
        }
    }
    Found::Nowhere
}

// The same, with words of its own for the variables and the latches.
fn find_first(
    m: &[u32],
    layout: Layout,
    order: &[u32],
    stage: Stage,
    records: &mut [u32],
    kept: &[u32],
) -> Found
    requires ready { Ready m.now layout order.now 4097 }
    requires asks { Asks m.now kept.now stage (length records.old) }
    ensures { FoundOf (part_in m.now kept.now) stage.b stage.first stage.limit stage.k records.new result }
{
    let mut values = [0u64; 4097];
    let mut state = [0u64; 1024];
    let q = Question { layout, stage };
    ask_frames(m, order, q, records, kept, &mut values, &mut state)
}

// Leaves at the front of working memory the free bits of row `row` of record e, of the layer of frame t, where a state has `words` words.
fn put_free(
    words: usize,
    t: usize,
    e: usize,
    row: usize,
    free: usize,
    width: usize,
    work: &mut [u32],
)
    requires t_bound { (t ≤ 255) × (row < 2 ^ width) × (free ≤ 16) × (width ≤ 16) × ((words + 4) * e + (words + 4) ≤ length work.old)
        × (free + width * (t + 1) ≤ length work.old) }
    requires by_index { (y : ℕ) × trace.Trace (2 ^ width) words work.old t e y }
    ensures { (y : ℕ) → trace.Trace (2 ^ width) words work.old t e y
        → FreeBits (free + width * (t + 1)) (y * 2 ^ width + row) work.new }
{
    let mut trace = [0u32; 257];
    traces::walk(work, words, t, e, row, &mut trace);
    traces::put_trace(&trace, free, width, free + width * (t + 1), work);
}

// The search of frames 0 to k by layers of states, the latches that are kept. After a hit, working memory begins with the free bits of the
// first one.
fn search_part(
    m: &[u32],
    layout: Layout,
    order: &[u32],
    stage: Stage,
    work: &mut [u32],
    kept: &[u32],
) -> Layers
    requires ready { Ready m.now layout order.now 4097 }
    requires stage_fits { StageFits m.now stage (length work.old) × Closed (part_in m.now kept.now) stage.b × (length kept.now ≤ 1024) }
    ensures { LayersOf (part_in m.now kept.now) stage.b stage.first stage.limit stage.k work.new result }
{
    if quota(m, layout, stage, 0, kept) == 0 {
        return Layers::GaveUp(0);
    }
    match find_first(m, layout, order, stage, work, kept) {
        Found::At(t, e, row) => {
            let words = width(kept.len());
            put_free(words, t, e, row, layout.u, layout.i, work);
            Layers::Hit(t)
        }
        Found::Nowhere => Layers::Clear,
        Found::Ended => Layers::Never,
        Found::Left(t) => Layers::GaveUp(t),
    }
}

// The same, with the latches in the cone of influence of bad line b.
pub fn search_layers(
    m: &[u32],
    layout: Layout,
    order: &[u32],
    stage: Stage,
    work: &mut [u32],
) -> Layers
    requires ready { Ready m.now layout order.now 4097 }
    requires stage_fits { StageFits m.now stage (length work.old) }
    ensures { LayersOf (part_of (circuit_in m.now) stage.b) stage.b stage.first stage.limit stage.k work.new result }
{
    let mut table = [0u32; 1024];
    let n = influence::kept_latches(m, layout, order, stage.b, &mut table);
    search_part(m, layout, order, stage, work, &table[..n])
}
