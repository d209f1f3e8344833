// The stage of the search by sets of states: attempts with orders of the latches in turn, each with a share of looks of its own. Sets begin
// at frame 0, and from the stage's first frame on their start states are sought.
#![tactic(auto)]

ghost use Rattle.std.specs.Prelude.{◌≡◌, ◌+◌, ◌*◌, ◌^◌, ◌≤◌, ◌<◌, eqb, length, get_or, replicate};
ghost use Rattle.aiger.specs.Frames.{size};
ghost use Rattle.layout.specs.Words.{word, circuit_in};
ghost use Rattle.frames.specs.Lanes.{Ready};
ghost use Rattle.influence.specs.Cone.{part_of};
ghost use Rattle.diagram_rows.specs.Words.{Prepared};
ghost use Rattle.state_sets.specs.Sets as Z;
ghost use Rattle.set_attempt.specs.Attempt as T;
ghost use Rattle.set_table.specs.Room.{TableRoom};
ghost use Rattle.set_search.specs.Search as S;

use layout::Layout;
use set_frames::{Reached, Span};
use state_sets::Shape;

// The stage: bad line b, frames up to k, the first frame that is not decided, and how many looks each attempt has.
#[derive(Clone, Copy)]
pub struct Stage {
    pub b: usize,
    pub k: usize,
    pub first: usize,
    pub share: u32,
}

// What the stage has come to: the first frame with a hit; no frame up to the bound has one; no frame at all has one, however late, as a set
// shows that stands at a frame up to the bound; or the frame at which it gives up.
#[derive(Clone, Copy)]
pub enum Searched {
    Hit(usize),
    Clear,
    Never,
    GaveUp(usize),
}

// A frame with a hit: the shape of the table, the frame, the words of the diagram, and how many inputs and free bits there are.
#[derive(Clone, Copy)]
struct Place {
    s: Shape,
    t: usize,
    words: usize,
    width: usize,
    count: usize,
}

// Copies words that are as many.
fn copy(from: &[u32], to: &mut [u32])
    requires { length to.old ≡ length from.now }
    ensures { to.new ≡ from.now }
{
    let mut i = 0;
    while i < to.len() {
        to[i] = from[i];
        i += 1;
    }
}

// Walks from the least start state to the first hit of a frame, and writes its free bits.
fn put_hit(
    p: Place,
    plan: &[u32],
    table: &[u32],
    frees: &[u32],
    bits: &[u32],
    base: &mut [u32],
    work: &mut [u32],
)
    requires { S.Shown p plan.now table.now frees.now base.old bits.now work.old }
    ensures { S.HitPut p plan.now table.now frees.now bits.now work.old work.new }
{
    let mut after = [0u32; 112];
    let mut trace = [0u32; 256];
    let s = p.s;
    let vars = s.vars;
    let words = p.words;
    let latches = 3 + plan[0] as usize;
    let inputs = latches + plan[1] as usize;
    copy(bits, base);
    set_walk::walk(
        &work[..words],
        table,
        s,
        p.t,
        base,
        &mut after[..vars],
        &mut trace,
    );
    trace_bits::put_bits(
        frees,
        bits,
        &plan[latches..inputs],
        &trace,
        p.width,
        p.count,
        work,
    );
}

// How many rows a plan has.
fn rows_of(plan: &[u32]) -> usize
    requires { (1 < length plan.now) × (word plan.now 1 ≤ 4) }
    ensures { (result ≡ 2 ^ word plan.now 1) × (result ≤ 16) }
{
    let inputs = plan[1] as usize;
    1usize << inputs
}

// Begins a diagram and makes the table of a plan in it.
fn begin_table(
    w: &mut [u32],
    m: &[u32],
    layout: Layout,
    stage: Stage,
    plan: &[u32],
    table: &mut [u32],
) -> bool
    requires prepared { Prepared m.now layout }
    requires table_room { TableRoom plan.now (length table.old) × (table.old ≡ replicate 2083 0) }
    ensures { Z.left w.new table.new result
        ≡ T.table_made (circuit_in m.now) stage.b plan.now (T.blank_sets (length w.old) stage.share) }
{
    diagrams::begin(w, stage.share);
    set_table::make_table(w, m, layout, stage.b, plan, table)
}

// Lists the variables of the free latches, and writes the start values of all variables. Answers how many free latches there are.
fn put_starts(
    m: &[u32],
    layout: Layout,
    latches: &[u32],
    frees: &mut [u32],
    base: &mut [u32],
) -> usize
    requires prepared { Prepared m.now layout }
    requires in_bounds { (1024 ≤ length frees.old) × (length latches.now ≤ 256) × (length base.old ≡ length latches.now) }
    ensures { S.StartsPut (circuit_in m.now) latches.now frees.new base.new result }
{
    let n = set_table::list_frees(m, layout, latches, frees);
    set_table::put_base(m, layout, latches, base);
    n
}

// An attempt with a plan, in the words of the first frame.
fn try_plan(
    m: &[u32],
    layout: Layout,
    stage: Stage,
    plan: &[u32],
    base: &mut [u32],
    bits: &mut [u32],
    work: &mut [u32],
) -> Reached
    requires prepared { Prepared m.now layout }
    requires asks { S.Asks m.now stage (length work.old) }
    requires tries_plan { S.TriesPlan m.now stage plan.now base.old bits.old }
    ensures { S.Reaches (circuit_in m.now) stage.k
        (S.plan_ending (circuit_in m.now) stage.b stage.share stage.first (stage.k + 1) plan.now)
        work.new result }
{
    let mut table = [0u32; 2083];
    let mut frees = [0u32; 1024];
    let vars = base.len();
    let end = 3 + vars;
    let rows = rows_of(plan);
    let s = Shape { vars, rows };
    let words = 16 * limits::size(layout, stage.first);
    if !begin_table(&mut work[..words], m, layout, stage, plan, &mut table) {
        return Reached::GaveUp(0);
    }
    let n = put_starts(m, layout, &plan[3..end], &mut frees, base);
    let first = stage.first;
    let k = stage.k;
    let span = Span { first, k };
    match set_frames::run_frames(
        &mut work[..words],
        &mut table,
        s,
        span,
        &frees[..n],
        base,
        bits,
    ) {
        Reached::Hit(t) => {
            let count = layout.u + layout.i * (t + 1);
            let p = Place {
                s,
                t,
                words,
                width: layout.i,
                count,
            };
            put_hit(p, plan, &table, &frees[..n], bits, base, work);
            Reached::Hit(t)
        }
        Reached::Never(t) => Reached::Never(t),
        Reached::Clear => Reached::Clear,
        Reached::GaveUp(t) => Reached::GaveUp(t),
    }
}

// Writes the plan of bad line b with the latches in the order `which`; false where too many latches are kept or too many inputs matter.
fn put_plan(
    m: &[u32],
    layout: Layout,
    order: &[u32],
    b: usize,
    which: u32,
    plan: &mut [u32],
) -> bool
    requires ready { Ready m.now layout order.now 4097 }
    requires b_bound { b < word m.now 5 }
    ensures { S.PlanPut (circuit_in m.now) b which plan.old plan.new result }
{
    let mut kept = [0u32; 1024];
    let count = influence::kept_latches(m, layout, order, b, &mut kept);
    if 112 < count {
        return false;
    }
    row_plans::make_plan(m, layout, order, b, &kept[..count], which, plan)
}

// Whether few latches are kept and few inputs matter.
fn is_able(m: &[u32], layout: Layout, order: &[u32], b: usize) -> bool
    requires ready { Ready m.now layout order.now 4097 }
    requires b_bound { b < word m.now 5 }
    ensures { result ≡ S.is_able (part_of (circuit_in m.now) b) b }
{
    let mut plan = [0u32; 3191];
    put_plan(m, layout, order, b, 0, &mut plan)
}

// An attempt with the latches in the order `which`.
fn attempt(
    m: &[u32],
    layout: Layout,
    order: &[u32],
    stage: Stage,
    which: u32,
    work: &mut [u32],
) -> Reached
    requires ready { Ready m.now layout order.now 4097 }
    requires asks { S.Asks m.now stage (length work.old) }
    requires bound { 1024 ≤ size (circuit_in m.now) stage.first }
    ensures { S.Reaches (circuit_in m.now) stage.k
        (S.attempt_at (part_of (circuit_in m.now) stage.b) stage.b stage.share stage.first (stage.k + 1) which)
        work.new result }
{
    let mut plan = [0u32; 3191];
    if !put_plan(m, layout, order, stage.b, which, &mut plan) {
        return Reached::GaveUp(0);
    }
    let vars = plan[0] as usize;
    let end = 3 + vars;
    if !set_table::are_distinct(&plan[3..end]) {
        return Reached::GaveUp(0);
    }
    let mut base = [0u32; 112];
    let mut bits = [0u32; 112];
    try_plan(
        m,
        layout,
        stage,
        &plan,
        &mut base[..vars],
        &mut bits[..vars],
        work,
    )
}

// The order of the latches in attempt i.
fn order_of(i: usize) -> u32
    requires { i < 4 }
    ensures { result ≡ get_or T.orders i 0 }
{
    match i {
        0 => 0,
        1 => 1,
        2 => 3,
        _ => 2,
    }
}

// Attempts in turn, until one decides a frame.
fn try_orders(m: &[u32], layout: Layout, order: &[u32], stage: Stage, work: &mut [u32]) -> Searched
    requires ready { Ready m.now layout order.now 4097 }
    requires asks { S.Asks m.now stage (length work.old) }
    requires bound { 1024 ≤ size (circuit_in m.now) stage.first }
    ensures { S.SetsOf (circuit_in m.now) stage.b stage.first stage.share stage.k work.new result }
{
    let first = stage.first;
    let mut i = 0usize;
    while i < 4 {
        match attempt(m, layout, order, stage, order_of(i), work) {
            Reached::Hit(t) => {
                return Searched::Hit(t);
            }
            Reached::Never(_) => {
                return Searched::Never;
            }
            Reached::Clear => {
                return Searched::Clear;
            }
            Reached::GaveUp(t) => {
                if first < t {
                    return Searched::GaveUp(t);
                }
                i += 1;
            }
        }
    }
    Searched::GaveUp(first)
}

// The stage. After a hit, working memory begins with the free bits of the first one.
pub fn search_sets(
    m: &[u32],
    layout: Layout,
    order: &[u32],
    stage: Stage,
    work: &mut [u32],
) -> Searched
    requires ready { Ready m.now layout order.now 4097 }
    requires asks { S.Asks m.now stage (length work.old) }
    ensures { S.SetsOf (circuit_in m.now) stage.b stage.first stage.share stage.k work.new result }
{
    let first = stage.first;
    if limits::size(layout, first) < 1024 {
        return Searched::GaveUp(first);
    }
    if !is_able(m, layout, order, stage.b) {
        return Searched::GaveUp(first);
    }
    try_orders(m, layout, order, stage, work)
}
