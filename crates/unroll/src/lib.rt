// The hit of a bad line at a frame as an edge of a graph over the free bits: the circuit is unrolled frame after frame. The node map
// of a frame has for each variable the word of its edge.
#![tactic(auto)]

ghost use Rattle.std.specs.Prelude.{◌≡◌, Bool, [], ℕ, ◌+◌, ◌^◌, ◌≤◌, ◌<◌, length, get_or, set};
ghost use Rattle.nodes.specs.Store.{pairs_of};
ghost use Rattle.nodes.specs.Edges.{edge_word};
ghost use Rattle.literals.specs.Literal.{literal, word_of};
ghost use Rattle.layout.specs.Words.{word, gate_in, circuit_in};
ghost use Rattle.frames.specs.Lanes.{Ready, GateRoom};
ghost use Rattle.unroll.specs.Map.{
  literal_edge,
  free_edge,
  start_edge,
  Prepared,
  Written,
  latch_var,
  input_var,
  start_word,
  next_word,
  input_word,
};
ghost use Rattle.unroll.specs.Map.{
  Extensible,
  GateMapped,
  GatesMapped,
  LeavesMapped,
  ConstrainedMapped,
  FrameMapped,
  FramedTo,
  LineMapped,
  HitMapped,
  BarMapped,
  FirstFits,
  FramesFit,
};
ghost use Rattle.unroll.specs.Unrolled.{UnrollFits, UnrolledBy, Unrolled};

use graph::Made;
use layout::Layout;
use literals::{Lit, Node, Var};
use nodes::{Edge, Graph};

// What is to be hit: bad line b at frame t; where `alone` is true, with the bad line false in every frame before.
#[derive(Clone, Copy)]
pub struct Aim {
    pub b: usize,
    pub t: usize,
    pub alone: bool,
}

// The edge of a literal.
fn edge_of(map: &[u32], l: Lit) -> Edge
    requires { l.0.0 < length map.now }
    ensures { (result ≡ literal_edge map.now l) × (edge_word result < 2 ^ 32) }
{
    let v = l.var();
    let at = v.0 as usize;
    let e = Edge::from_word(map[at]);
    if l.is_complement() {
        return e.complement();
    }
    e
}

// Gives a variable its edge.
fn put_edge(map: &mut [u32], v: Var, e: Edge)
    requires { (v.0 < length map.old) × (edge_word e < 2 ^ 32) }
    ensures { map.new ≡ set map.old v.0 (edge_word e) }
{
    let at = v.0 as usize;
    map[at] = e.word() as u32;
}

// The edge of free bit j.
fn free_edge(j: usize) -> Edge
    requires { j < 65536 }
    ensures { result ≡ free_edge j }
{
    Edge(Node((j + 1) as u32), false)
}

// The edge of a latch's start: constant, or the free bit that is next.
fn start_edge(lit: Lit, reset: Lit, next: usize) -> Edge
    requires { next < 65536 }
    ensures { result ≡ start_edge (word_of lit) (word_of reset) next }
{
    if reset.equals(lit) {
        return free_edge(next);
    }
    Edge(Node(0), reset.is_true())
}

// Gives each latch the edge of its start.
fn put_starts(m: &[u32], layout: Layout, map: &mut [u32])
    requires { Prepared m.now layout (length map.old) }
    ensures { Written (latch_var m.now layout.latches) (start_word m.now layout.latches) layout.l
        map.old map.new }
{
    let latches = layout.latches;
    let mut next = 0;
    for j in 0..layout.l {
        let lit = Lit::from_word(m[latches + 3 * j]);
        let reset = Lit::from_word(m[latches + 3 * j + 2]);
        put_edge(map, lit.var(), start_edge(lit, reset, next));
        next += layout::free_start(lit, reset);
    }
}

// Gives each input its free bit in a frame; the first input has free bit `first`.
fn put_inputs(m: &[u32], layout: Layout, first: usize, map: &mut [u32])
    requires prepared { Prepared m.now layout (length map.old) }
    requires i_bound { first + layout.i ≤ 65536 }
    ensures { Written (input_var m.now) (input_word first) layout.i map.old map.new }
{
    for i in 0..layout.i {
        let l = Lit::from_word(m[7 + i]);
        put_edge(map, l.var(), free_edge(first + i));
    }
}

// Gives the gate whose words stand at `at` the edge that is made of its operands' edges.
fn put_gate(work: &mut [u32], g: Graph, m: &[u32], at: usize, map: &mut [u32]) -> Graph
    requires gate_room { GateRoom m.now at (length map.old) }
    requires extensible { Extensible 1 work.old g map.old }
    ensures { GateMapped (gate_in m.now at) g.free work.old g map.old work.new result
        map.new }
{
    let l = Lit::from_word(m[at]);
    let a = edge_of(map, Lit::from_word(m[at + 1]));
    let b = edge_of(map, Lit::from_word(m[at + 2]));
    let made = graph::make(work, g, a, b);
    let e = made.edge;
    put_edge(map, l.var(), e);
    made.graph
}

// Gives each gate its edge.
fn put_gates(
    work: &mut [u32],
    g: Graph,
    m: &[u32],
    layout: Layout,
    order: &[u32],
    map: &mut [u32],
) -> Graph
    requires ready { Ready m.now layout order.now (length map.old) }
    requires extensible { Extensible layout.a work.old g map.old }
    ensures { GatesMapped (circuit_in m.now) g.free work.old g map.old work.new result
        map.new }
{
    let gates = layout.gates;
    let mut graph = g;
    for k in 0..layout.a {
        let i = order[k] as usize;
        graph = put_gate(work, graph, m, gates + 3 * i, map);
    }
    graph
}

// The edges of the next literals.
fn next_state(m: &[u32], layout: Layout, map: &[u32], state: &mut [u32])
    requires prepared { Prepared m.now layout (length map.now) }
    requires in_bounds { 1024 ≤ length state.old }
    ensures { (j : ℕ) → j < layout.l → get_or state.new j 0 ≡ next_word m.now layout.latches map.now j }
{
    let latches = layout.latches;
    for j in 0..layout.l {
        let e = edge_of(map, Lit::from_word(m[latches + 3 * j + 1]));
        state[j] = e.word() as u32;
    }
}

// Gives each latch its edge.
fn put_state(m: &[u32], layout: Layout, state: &[u32], map: &mut [u32])
    requires prepared { Prepared m.now layout (length map.old) }
    requires in_bounds { 1024 ≤ length state.now }
    ensures { Written (latch_var m.now layout.latches) (λ j. get_or state.now j 0) layout.l map.old
        map.new }
{
    let latches = layout.latches;
    for j in 0..layout.l {
        let l = Lit::from_word(m[latches + 3 * j]);
        put_edge(map, l.var(), Edge::from_word(state[j]));
    }
}

// Gives latches and inputs their edges in the next frame, whose first input has free bit `first`. The next literals' edges are all read
// before the first is written. What state holds afterwards is left open.
fn put_leaves(m: &[u32], layout: Layout, first: usize, state: &mut [u32], map: &mut [u32])
    requires prepared { Prepared m.now layout (length map.old) }
    requires i_bound { (first + layout.i ≤ 65536) × (1024 ≤ length state.old) }
    ensures { LeavesMapped m.now layout first map.old map.new }
{
    next_state(m, layout, map, state);
    put_state(m, layout, state, map);
    put_inputs(m, layout, first, map);
}

// The conjunction of an edge and the constraints of a frame.
fn constrain(work: &mut [u32], g: Graph, m: &[u32], layout: Layout, from: Edge, map: &[u32]) -> Made
    requires prepared { Prepared m.now layout (length map.now) }
    requires extensible { Extensible layout.c work.old g map.now }
    requires from_lt_nodes { from.0.0 < g.nodes }
    ensures { ConstrainedMapped (circuit_in m.now) from g.free work.old g map.now work.new result }
{
    let constraints = layout.constraints;
    let mut graph = g;
    let mut left = from;
    for done in 0..layout.c {
        let e = edge_of(map, Lit::from_word(m[constraints + done]));
        let made = graph::make(work, graph, left, e);
        graph = made.graph;
        left = made.edge;
    }
    Made { graph, edge: left }
}

// The gates of a frame whose leaves have their edges, and the conjunction of the edge that is given and the frame's constraints.
fn put_frame(
    work: &mut [u32],
    before: Made,
    m: &[u32],
    layout: Layout,
    order: &[u32],
    map: &mut [u32],
) -> Made
    requires ready { Ready m.now layout order.now (length map.old) }
    requires extensible { Extensible (layout.a + layout.c) work.old before.graph map.old }
    requires edge_lt_nodes { before.edge.0.0 < before.graph.nodes }
    ensures { FrameMapped (circuit_in m.now) work.old before map.old work.new result map.new }
{
    let graph = put_gates(work, before.graph, m, layout, order, map);
    constrain(work, graph, m, layout, before.edge, map)
}

// Frame 0, and the edge that is true where its constraints hold.
fn first_frame(
    work: &mut [u32],
    g: Graph,
    m: &[u32],
    layout: Layout,
    order: &[u32],
    map: &mut [u32],
) -> Made
    requires ready { Ready m.now layout order.now (length map.old) }
    requires first_fits { FirstFits layout work.old g map.old }
    ensures { pairs_of work.old g ≡ [] → (alone : Bool) (b t : ℕ)
        → FramedTo alone (circuit_in m.now) b t 0 g.free g.room work.new result map.new }
{
    put_starts(m, layout, map);
    put_inputs(m, layout, layout.u, map);
    let graph = put_gates(work, g, m, layout, order, map);
    constrain(work, graph, m, layout, Edge(Node(0), true), map)
}

// The conjunction of an edge and a literal.
fn line_edge(work: &mut [u32], frames: Made, l: Lit, map: &[u32]) -> Made
    requires by_index { ((w : ℕ) × (l ≡ literal w)) × (l.0.0 < length map.now) }
    requires extensible { Extensible 1 work.old frames.graph map.now }
    requires edge_lt_nodes { frames.edge.0.0 < frames.graph.nodes }
    ensures { (w : ℕ) → l ≡ literal w
        → LineMapped w frames.graph.free work.old frames map.now work.new result }
{
    let e = edge_of(map, l);
    graph::make(work, frames.graph, frames.edge, e)
}

// The conjunction of an edge and the bad line.
fn hit_edge(
    work: &mut [u32],
    frames: Made,
    m: &[u32],
    layout: Layout,
    b: usize,
    map: &[u32],
) -> Made
    requires prepared { Prepared m.now layout (length map.now) }
    requires extensible { Extensible 1 work.old frames.graph map.now }
    requires edge_lt_nodes { (frames.edge.0.0 < frames.graph.nodes) × (b < word m.now 5) }
    ensures { HitMapped (circuit_in m.now) b frames.graph.free work.old frames map.now work.new
        result }
{
    let bads = layout.bads;
    let l = Lit::from_word(m[bads + b]);
    line_edge(work, frames, l, map)
}

// What goes on to the next frame: where a hit is to be alone, the conjunction of an edge and the complement of the bad line.
fn bar_edge(
    work: &mut [u32],
    frames: Made,
    m: &[u32],
    layout: Layout,
    aim: Aim,
    map: &[u32],
) -> Made
    requires prepared { Prepared m.now layout (length map.now) }
    requires extensible { Extensible 1 work.old frames.graph map.now }
    requires edge_lt_nodes { (frames.edge.0.0 < frames.graph.nodes) × (aim.b < word m.now 5) }
    ensures { BarMapped aim.alone (circuit_in m.now) aim.b frames.graph.free work.old frames
        map.now work.new result }
{
    if aim.alone {
        let bads = layout.bads;
        let b = aim.b;
        let l = Lit::from_word(m[bads + b]);
        return line_edge(work, frames, l.complement(), map);
    }
    frames
}

// The frames after frame 0, up to the frame that is aimed at, and the edge that is true where it can still be hit.
fn put_frames(
    work: &mut [u32],
    first: Made,
    m: &[u32],
    layout: Layout,
    order: &[u32],
    aim: Aim,
    map: &mut [u32],
) -> Made
    requires ready { Ready m.now layout order.now (length map.old) }
    requires frames_fit { FramesFit m.now layout aim.alone aim.b aim.t work.old first map.old }
    ensures { FramedTo aim.alone (circuit_in m.now) aim.b aim.t aim.t first.graph.free first.graph.room
        work.new result map.new }
{
    let mut state = [0u32; 1024];
    let starts = layout.u;
    let inputs = layout.i;
    let mut made = first;
    for u in 0..aim.t {
        let kept = bar_edge(work, made, m, layout, aim, map);
        put_leaves(m, layout, starts + inputs * (u + 1), &mut state, map);
        made = put_frame(work, kept, m, layout, order, map);
    }
    made
}

// The hit that is aimed at. room is the number of nodes that working memory has room for.
pub fn unroll_aim(
    work: &mut [u32],
    m: &[u32],
    layout: Layout,
    order: &[u32],
    aim: Aim,
    room: usize,
) -> Made
    requires { UnrollFits work.old m.now layout order.now aim.b aim.t room }
    ensures { UnrolledBy aim.alone (circuit_in m.now) aim.b aim.t work.new room result }
{
    let mut map = [0u32; 4097];
    let free = layout.u + layout.i * (aim.t + 1);
    let empty = graph::start(work, free, room);
    let first = first_frame(work, empty, m, layout, order, &mut map);
    let frames = put_frames(work, first, m, layout, order, aim, &mut map);
    hit_edge(work, frames, m, layout, aim.b, &map)
}

// Any hit of b at frame t.
pub fn unroll(
    work: &mut [u32],
    m: &[u32],
    layout: Layout,
    order: &[u32],
    b: usize,
    t: usize,
    room: usize,
) -> Made
    requires { UnrollFits work.old m.now layout order.now b t room }
    ensures { Unrolled (circuit_in m.now) b t work.new room result }
{
    let alone = false;
    unroll_aim(work, m, layout, order, Aim { b, t, alone }, room)
}
