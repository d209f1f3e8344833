// What a frame has: the first sequences are tried on the circuit. Then the graph of the hit is searched: over its support alone where
// that is small, else by conflicts, and over its support from the floor on where those decide nothing.
#![tactic(auto)]

ghost use Rattle.std.specs.Prelude.{◌≡◌, cond, ℕ, ◌+◌, ◌*◌, ◌^◌, ◌≤◌, ◌<◌, min, max, T, length};
ghost use Rattle.aiger.specs.Bits.{nonzero};
ghost use Rattle.aiger.specs.Frames.{free_bits, size};
ghost use Rattle.layout.specs.Words.{circuit_in};
ghost use Rattle.nodes.specs.Store.{field, pairs_of, Sized};
ghost use Rattle.nodes.specs.Edges.{edge_word};
ghost use Rattle.cone.specs.Store.{Marks};
ghost use Rattle.support.specs.Counting.{rank};
ghost use Rattle.support.specs.Support.{support};
ghost use Rattle.solver.specs.Solved.{FloorLeft};
ghost use Rattle.decision.specs.Reach as R;
ghost use Rattle.decision.specs.Decided.{
  FrameFits,
  Floored,
  DecidedBy,
  FrameDecided,
  PreparedBy,
  Prepared,
  Scannable,
  Scanned,
  Resumable,
  Resumed,
};

use conflicts::Verdict;
use enumeration::Frame;
use graph::Made;
use layout::Layout;
use nodes::{Edge, Graph};
use simulation::Found;
use unroll::Aim;

// Places of the support are tried up to this one, whatever the budget: 2 to the power 14.
const LEAST: u64 = 16384;

// Up to so many sequences are all tried on the circuit: 2 to the power 12. Up to 12 free bits a graph is made with merges by function,
// which cost more than these.
const FEW: u64 = 4096;

// Where there are more, so many are tried on the circuit: 2 to the power 6, the places of one block.
const FIRST: u64 = 64;

// So many of the budget add to the effort of the conflict search.
const MOST: u64 = 8388608;

// The larger of d and the number of places that are tried in any case.
fn places(d: u64) -> u64
    ensures { result ≡ max d 16384 }
{
    if d < LEAST { LEAST } else { d }
}

// How many sequences are tried on the circuit.
pub fn first_places(layout: Layout, t: usize) -> u64
    requires { (layout.i ≤ 256) × (layout.u ≤ 1024) × (t ≤ 255) }
    ensures { (64 ≤ result) × (result ≤ 16384) × (result ≡ R.first_places (layout.u + layout.i * (t + 1))) }
{
    if layout.u + layout.i * (t + 1) <= 12 {
        FEW
    } else {
        FIRST
    }
}

// What of the budget adds to the effort of the conflict search.
fn share(d: u64) -> u64
    ensures { result ≡ min d 8388608 }
{
    if d < MOST { d } else { MOST }
}

// The effort of the conflict search at a size and a budget.
pub fn effort(size: usize, d: u64) -> u64
    requires { size ≤ 65536 }
    ensures { result ≡ R.effort size d }
{
    16384 + 16 * (size as u64) + 32 * share(d)
}

// 1 if node k is marked, else 0.
fn mark_of(work: &[u32], k: usize) -> usize
    requires { 16 * k + 16 ≤ length work.now }
    ensures { result ≡ cond (nonzero (field work.now k 10)) 1 0 }
{
    if work[16 * k + 10] == 0 { 0 } else { 1 }
}

// How many free bits are marked.
pub fn support_size(work: &[u32], g: Graph) -> usize
    requires { Sized g (length work.now) }
    ensures { (root : ℕ) → Marks (pairs_of work.now g) work.now g root → result
        ≡ rank (support g.free (pairs_of work.now g) root) g.free }
{
    let free = g.free;
    let mut r = 0;
    let mut i = 0;
    while i < free {
        r += mark_of(work, free - i);
        i += 1;
    }
    r
}

// Whether all places of a support of s free bits are tried before any conflict search, on a graph of so many nodes.
fn is_small(s: usize, nodes: usize, d: u64) -> bool
    requires { nodes ≤ 65536 }
    ensures { T result → 2 ^ s ≤ max d 16384 }
{
    if 20 < s {
        return false;
    }
    let all = 1u64 << s;
    if 4294967296 < all * (nodes as u64) {
        return false;
    }
    all <= places(d)
}

// The graph of the hit that is aimed at, with the marks of its cone.
fn prepare_aim(m: &[u32], layout: Layout, order: &[u32], aim: Aim, work: &mut [u32]) -> Made
    requires { FrameFits work.old m.now layout order.now aim.b aim.t 1 }
    ensures { PreparedBy aim.alone (circuit_in m.now) aim.b aim.t work.new result }
{
    let room = limits::size(layout, aim.t);
    let made = unroll::unroll_aim(work, m, layout, order, aim, room);
    let graph = made.graph;
    let root = made.edge;
    cone::mark(work, graph, root);
    made
}

// The same of any hit of b at frame t.
pub fn prepare(
    m: &[u32],
    layout: Layout,
    order: &[u32],
    b: usize,
    t: usize,
    work: &mut [u32],
) -> Made
    requires { FrameFits work.old m.now layout order.now b t 1 }
    ensures { Prepared (circuit_in m.now) b t work.new result }
{
    let alone = false;
    prepare_aim(m, layout, order, Aim { b, t, alone }, work)
}

// What the places of the support have, where none before place `from` hits.
fn scan(work: &mut [u32], g: Graph, root: Edge, from: u64, d: u64) -> Frame
    requires { Scannable work.old g (edge_word root) from d }
    ensures { Scanned g.free (pairs_of work.old g) (edge_word root) (max d 16384) work.new result }
{
    match simulation::first_hit(work, g, root, from, places(d)) {
        Found::Hit => Frame::Hit,
        Found::Clear => Frame::Clear,
        Found::Spent => Frame::Spent,
    }
}

// What the places of the support have from the sequence in `bits` on, before which none hits. Where they are spent, a sequence before
// which none hits is left at the front of working memory: this one, if the places to be tried lie before it, else the one after those.
fn go_on(work: &mut [u32], g: Graph, root: Edge, d: u64, bits: &mut [u32]) -> Frame
    requires { Resumable work.old g (edge_word root) d bits.old }
    ensures { (x : ℕ) → FloorLeft g.free (pairs_of work.old g) (edge_word root) x bits.old
        → Resumed g.free (pairs_of work.old g) (edge_word root) (max d 16384) x work.new result }
{
    let n = g.free;
    let y = places(d);
    let from = resume::place_of(work, g, bits);
    if y <= from {
        resume::copy_bits(bits, n, work);
        return Frame::Spent;
    }
    resume::spread_bits(work, g, y, bits);
    match scan(work, g, root, from, d) {
        Frame::Hit => Frame::Hit,
        Frame::Clear => Frame::Clear,
        Frame::Spent => {
            resume::copy_bits(bits, n, work);
            Frame::Spent
        }
    }
}

// So many free bits have room in the local words: 2 to the power 10. More would cost every search the pages of a larger stack.
const HELD: usize = 1024;

// The smaller of n and the number of free bits that have room.
fn held(n: usize) -> usize
    ensures { result ≡ min n 1024 }
{
    if n < HELD { n } else { HELD }
}

// What the frame that is aimed at has by all places of the support, where the conflict search has not decided it and there are more free
// bits than have room.
fn search_all(m: &[u32], layout: Layout, order: &[u32], aim: Aim, d: u64, work: &mut [u32]) -> Frame
    requires frame_fits { FrameFits work.old m.now layout order.now aim.b aim.t d }
    requires undecided { R.Undecided aim.alone (circuit_in m.now) aim.b aim.t d }
    requires bound { 1024 < free_bits (circuit_in m.now) aim.t }
    ensures { DecidedBy aim.alone (circuit_in m.now) aim.b aim.t d work.new result }
{
    let made = prepare_aim(m, layout, order, aim, work);
    let graph = made.graph;
    let root = made.edge;
    scan(work, graph, root, 0, d)
}

// What the frame that is aimed at has by the places of the support, where the conflict search has not decided it and left its floor at
// the front of working memory.
fn search_support(
    m: &[u32],
    layout: Layout,
    order: &[u32],
    aim: Aim,
    d: u64,
    work: &mut [u32],
) -> Frame
    requires frame_fits { FrameFits work.old m.now layout order.now aim.b aim.t d }
    requires undecided { R.Undecided aim.alone (circuit_in m.now) aim.b aim.t d }
    requires floored { Floored aim.alone (circuit_in m.now) aim.b aim.t d work.old }
    requires t_bound { free_bits (circuit_in m.now) aim.t ≤ 1024 }
    ensures { DecidedBy aim.alone (circuit_in m.now) aim.b aim.t d work.new result }
{
    let mut bits = [0u32; 1024];
    let n = held(limits::size(layout, aim.t));
    resume::copy_bits(work, n, &mut bits);
    let made = prepare_aim(m, layout, order, aim, work);
    let graph = made.graph;
    let root = made.edge;
    go_on(work, graph, root, d, &mut bits)
}

// What the frame that is aimed at has, in exactly the words of the frame.
fn search_graph(
    m: &[u32],
    layout: Layout,
    order: &[u32],
    aim: Aim,
    d: u64,
    work: &mut [u32],
) -> Frame
    requires frame_fits { FrameFits work.old m.now layout order.now aim.b aim.t d }
    requires work_len { length work.old ≡ 16 * size (circuit_in m.now) aim.t }
    ensures { DecidedBy aim.alone (circuit_in m.now) aim.b aim.t d work.new result }
{
    let made = prepare_aim(m, layout, order, aim, work);
    let graph = made.graph;
    let root = made.edge;
    let s = support_size(work, graph);
    if is_small(s, graph.nodes, d) {
        return scan(work, graph, root, 0, d);
    }
    let e = effort(graph.room, d);
    match solver::first_hit(work, graph, root, e) {
        Verdict::Found => Frame::Hit,
        Verdict::Clear(_) => Frame::Clear,
        Verdict::Out => {
            if graph.free <= HELD {
                return search_support(m, layout, order, aim, d, work);
            }
            search_all(m, layout, order, aim, d, work)
        }
    }
}

// What the frame that is aimed at has, by its graph. Where there is a first hit its free bits are left at the front of working memory;
// where the frame is spent, those of a sequence before which none hits.
pub fn decide_aim(
    m: &[u32],
    layout: Layout,
    order: &[u32],
    aim: Aim,
    d: u64,
    work: &mut [u32],
) -> Frame
    requires { FrameFits work.old m.now layout order.now aim.b aim.t d }
    ensures { DecidedBy aim.alone (circuit_in m.now) aim.b aim.t d work.new result }
{
    let words = 16 * limits::size(layout, aim.t);
    search_graph(m, layout, order, aim, d, &mut work[..words])
}

// What frame t has: the first sequences are tried on the circuit, and then the graph of any hit decides.
pub fn decide(
    m: &[u32],
    layout: Layout,
    order: &[u32],
    b: usize,
    t: usize,
    d: u64,
    work: &mut [u32],
) -> Frame
    requires { FrameFits work.old m.now layout order.now b t d }
    ensures { FrameDecided (circuit_in m.now) b t d work.new result }
{
    let first = first_places(layout, t);
    let alone = false;
    match enumeration::first_hit(m, layout, order, b, t, first, work) {
        Frame::Hit => Frame::Hit,
        Frame::Clear => Frame::Clear,
        Frame::Spent => decide_aim(m, layout, order, Aim { b, t, alone }, d, work),
    }
}
