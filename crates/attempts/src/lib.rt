// Frames one after the other, each with a given effort: what an effort finds of a frame, and the stage of the search that goes so, with a
// limit on its effort.
#![tactic(auto)]

ghost use Rattle.std.specs.Prelude.{◌≡◌, ℕ, ◌-◌, ◌*◌, ◌≤◌, min, length};
ghost use Rattle.aiger.specs.Circuit.{Circuit};
ghost use Rattle.aiger.specs.Frames.{free_bits, size};
ghost use Rattle.layout.specs.Words.{circuit_in};
ghost use Rattle.nodes.specs.Edges.{edge_word};
ghost use Rattle.netlist.specs.Netlist.{Marked};
ghost use Rattle.attempts.specs.Attempts as At;
ghost use Rattle.attempts.specs.Stage.{StageFits, StageIs};
ghost use Rattle.decision.specs.Decided.{FrameFits, Prepared};

use conflicts::Verdict;
use enumeration::Frame;
use graph::Made;
use layout::Layout;
use simulation::Found;

// What an effort has found of a frame: a hit, no hit, which took so much of it, or nothing.
#[derive(Clone, Copy)]
pub enum Tried {
    Hit,
    Clear(u64),
    Out,
}

// What a stage has come to: the first frame with a hit; no frame up to the bound has one; the frame at which the stage gives up; the frame
// at which the budget cuts the list of stages off.
#[derive(Clone, Copy)]
pub enum Staged {
    Hit(usize),
    Nothing,
    GaveUp(usize),
    CutOff(usize),
}

// Frames up to k are asked for bad line b, with a budget of d.
#[derive(Clone, Copy)]
pub struct Query {
    pub b: usize,
    pub k: usize,
    pub d: u64,
}

// Whether all places of a support of s free bits may be tried, on a graph of so many nodes.
fn is_small(s: usize, nodes: usize) -> bool
    requires { nodes ≤ 65536 }
    ensures { result ≡ At.is_small s nodes }
{
    if 20 < s {
        return false;
    }
    let all = 1u64 << s;
    all * (nodes as u64) <= 4294967296
}

// What trying them costs.
fn scan_cost(s: usize, nodes: usize) -> u64
    requires { (s ≤ 20) × (nodes ≤ 65536) }
    ensures { result ≡ At.cost_of s nodes }
{
    let all = 1u64 << s;
    all * (nodes as u64) / 1024
}

// What frame t has by all 2 to the power s places of the support of its hit, whose graph is prepared: that costs so much.
fn scan_support(work: &mut [u32], made: Made, s: usize, cost: u64) -> Tried
    requires { At.Scannable work.old made s }
    ensures { (c : Circuit) (b t : ℕ) → Prepared c b t work.old made
        → At.Answers (At.whole (At.all_of c b t) cost) (free_bits c t) work.new result }
{
    let graph = made.graph;
    let root = made.edge;
    match simulation::first_hit(work, graph, root, 0, 1u64 << s) {
        Found::Hit => Tried::Hit,
        Found::Clear => Tried::Clear(cost),
        Found::Spent => Tried::Out,
    }
}

// What frame t has by the conflict search with an effort of e, in the words of the graph of its hit, which is prepared.
fn search_conflicts(work: &mut [u32], made: Made, e: u64) -> Tried
    requires { Marked work.old made.graph (edge_word made.edge) }
    ensures { (c : Circuit) (b t : ℕ) → Prepared c b t work.old made
        → At.Answers (At.by_search (At.solved_at c b t (length work.old) e) (At.all_of c b t)) (free_bits c t) work.new result }
{
    let graph = made.graph;
    let root = made.edge;
    match solver::first_hit(work, graph, root, e) {
        Verdict::Found => Tried::Hit,
        Verdict::Clear(used) => Tried::Clear(used),
        Verdict::Out => Tried::Out,
    }
}

// What an effort of e finds of frame t by the graph of its hit, in exactly the words of the frame.
fn attempt_graph(
    m: &[u32],
    layout: Layout,
    order: &[u32],
    b: usize,
    t: usize,
    e: u64,
    work: &mut [u32],
) -> Tried
    requires frame_fits { FrameFits work.old m.now layout order.now b t 1 }
    requires work_len { length work.old ≡ 16 * size (circuit_in m.now) t }
    ensures { At.GraphIs (circuit_in m.now) b t e work.new result }
{
    let made = decision::prepare(m, layout, order, b, t, work);
    let graph = made.graph;
    let s = decision::support_size(work, graph);
    if is_small(s, graph.nodes) {
        let cost = scan_cost(s, graph.nodes);
        if e < cost {
            return Tried::Out;
        }
        return scan_support(work, made, s, cost);
    }
    search_conflicts(work, made, e)
}

// What an effort of e finds of frame t. After a hit, working memory begins with the free bits of the first one.
pub fn attempt(
    m: &[u32],
    layout: Layout,
    order: &[u32],
    b: usize,
    t: usize,
    e: u64,
    work: &mut [u32],
) -> Tried
    requires { FrameFits work.old m.now layout order.now b t 1 }
    ensures { At.AttemptIs (circuit_in m.now) b t e work.new result }
{
    let first = decision::first_places(layout, t);
    match enumeration::first_hit(m, layout, order, b, t, first, work) {
        Frame::Hit => Tried::Hit,
        Frame::Clear => Tried::Clear(0),
        Frame::Spent => {
            let words = 16 * limits::size(layout, t);
            attempt_graph(m, layout, order, b, t, e, &mut work[..words])
        }
    }
}

// What is left of a limit after so much was used.
fn less(left: u64, used: u64) -> u64
    ensures { result ≡ left - used }
{
    if left < used { 0 } else { left - used }
}

// The smaller of two efforts.
fn smaller(a: u64, b: u64) -> u64
    ensures { result ≡ min a b }
{
    if a < b { a } else { b }
}

// The stage: frames from `first` on, each with the smaller of what is left of the limit and what the budget allows. A frame that is not
// decided ends it: the budget cuts the list of stages off where it allowed less than was left, else the stage gives up.
pub fn attempt_frames(
    m: &[u32],
    layout: Layout,
    order: &[u32],
    first: usize,
    q: Query,
    limit: u64,
    work: &mut [u32],
) -> Staged
    requires { StageFits m.now layout order.now q.b q.k q.d work.old }
    ensures { StageIs (circuit_in m.now) q.b q.k q.d first limit work.new result }
{
    let b = q.b;
    let k = q.k;
    let d = q.d;
    let mut t = first;
    let mut left = limit;
    while t <= k {
        let allowed = decision::effort(limits::size(layout, t), d);
        let e = smaller(left, allowed);
        match attempt(m, layout, order, b, t, e, work) {
            Tried::Hit => {
                return Staged::Hit(t);
            }
            Tried::Clear(used) => {
                left = less(left, used);
                t += 1;
            }
            Tried::Out => {
                if allowed < left {
                    return Staged::CutOff(t);
                }
                return Staged::GaveUp(t);
            }
        }
    }
    Staged::Nothing
}
