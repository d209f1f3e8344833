// The stages of the search, in rounds: layers of states, sets of states, then attempts frame by frame. Each stage begins at the first frame
// that is not decided, and its limit is eight times that of the round before.
#![tactic(auto)]

ghost use Rattle.std.specs.Prelude.{◌≡◌, List, ℕ, ◌*◌, ◌≤◌, max, leb};
ghost use Rattle.aiger.specs.Circuit.{Circuit};
ghost use Rattle.aiger.specs.Search.{question};
ghost use Rattle.layout.specs.Words.{circuit_in};
ghost use Rattle.stages.specs.Endings as stages;
ghost use Rattle.stages.specs.Choice.{limit_in};
ghost use Rattle.attempts.specs.Stage.{StageFits, conflict_stage};
ghost use Rattle.staged.specs.Schedule.{layers_stage, sets_once, sets_stage, share_in};
ghost use Rattle.staged.specs.Answers.{Shows, LaterIs, RoundIs, RoundsAre};

use attempts::{Query, Staged};
use layout::Layout;
use reachable::{Layers, Limit, Stage};
use set_search::Searched;

// What the stages have come to: the first frame with a hit; no frame up to the bound has one; no frame at all has one, however late, which
// is known at a frame up to the bound; or the frame from which on each frame is decided by itself.
#[derive(Clone, Copy)]
pub enum Rounds {
    Hit(usize),
    Nothing,
    Never,
    Left(usize),
}

// The same of some of them; where they give up at a frame, the stages after them begin there.
#[derive(Clone, Copy)]
enum Passed {
    Hit(usize),
    Nothing,
    Never,
    GaveUp(usize),
    CutOff(usize),
}

// A limit in round r: eight times that of the round before.
fn limit_in(base: u64, r: usize) -> u64
    requires { (base ≤ 300000) × (r ≤ 7) }
    ensures { (result ≡ limit_in base r) × (result ≤ 629145600000) }
{
    base * (1u64 << (3 * r))
}

// The share of looks in round r.
fn share_in(r: usize) -> u32
    requires { r ≤ 7 }
    ensures { result ≡ share_in r }
{
    let share = limit_in(40000, r);
    if share < 4294967295 {
        return share as u32;
    }
    4294967295
}

// The later of two frames.
fn later(t: usize, u: usize) -> usize
    ensures { result ≡ max t u }
{
    if t < u { u } else { t }
}

// A stage that gives up at frame t, where it begins at `first` and sees frames up to k.
fn give_up(t: usize, first: usize, k: usize) -> Passed
    ensures { (c : Circuit) (work : List ℕ) → Shows c k (stages.Staged.ends (stages.Ending.gave_up (max t first))) work result }
{
    let u = later(t, first);
    if k < u {
        return Passed::Nothing;
    }
    Passed::GaveUp(u)
}

// The layers of states, with a limit on their work.
fn by_layers(
    m: &[u32],
    layout: Layout,
    order: &[u32],
    first: usize,
    q: Query,
    limit: u64,
    work: &mut [u32],
) -> Passed
    requires stage_fits { StageFits m.now layout order.now q.b q.k q.d work.old }
    requires first_le_k { (first ≤ q.k) × (limit ≤ 629145600000) }
    ensures { Shows (circuit_in m.now) q.k (layers_stage (circuit_in m.now) q.b limit first q.d) work.new result }
{
    let b = q.b;
    let k = q.k;
    let limit = Limit {
        base: limit,
        unit: 0,
    };
    let stage = Stage { b, k, first, limit };
    match reachable::search_layers(m, layout, order, stage, work) {
        Layers::Hit(t) => Passed::Hit(t),
        Layers::Clear => Passed::Nothing,
        Layers::Never => Passed::Never,
        Layers::GaveUp(t) => give_up(t, first, k),
    }
}

// The sets of states from frame `first` on, with a share of looks for each order of the latches.
fn try_sets(
    m: &[u32],
    layout: Layout,
    order: &[u32],
    first: usize,
    q: Query,
    share: u32,
    work: &mut [u32],
) -> Passed
    requires stage_fits { StageFits m.now layout order.now q.b q.k q.d work.old }
    requires first_le_k { (first ≤ q.k) × stages.NoneBefore (question (circuit_in m.now) q.b) first }
    ensures { Shows (circuit_in m.now) q.k (stages.Staged.ends (sets_once (circuit_in m.now) q.b share first))
        work.new result }
{
    let b = q.b;
    let k = q.k;
    let stage = set_search::Stage { b, k, first, share };
    match set_search::search_sets(m, layout, order, stage, work) {
        Searched::Hit(t) => Passed::Hit(t),
        Searched::Clear => Passed::Nothing,
        Searched::Never => Passed::Never,
        Searched::GaveUp(t) => Passed::GaveUp(t),
    }
}

// Whether a frame that was reached is far enough, by its size and that of the frame at which the sets were begun.
fn is_far(begun: usize, reached: usize) -> bool
    requires { (begun ≤ 65536) × (reached ≤ 65536) }
    ensures { result ≡ leb (3 * begun) (2 * reached) }
{
    3 * begun <= 2 * reached
}

// The sets of states, begun again in the words of a frame that they have reached, where it is far enough.
fn by_sets(
    m: &[u32],
    layout: Layout,
    order: &[u32],
    start: usize,
    q: Query,
    share: u32,
    work: &mut [u32],
) -> Passed
    requires stage_fits { StageFits m.now layout order.now q.b q.k q.d work.old }
    requires start_le_k { (start ≤ q.k) × stages.NoneBefore (question (circuit_in m.now) q.b) start }
    ensures { Shows (circuit_in m.now) q.k (sets_stage (circuit_in m.now) q.b share start q.d) work.new result }
{
    let mut first = start;
    let mut left = 12usize;
    while 0 < left {
        match try_sets(m, layout, order, first, q, share, work) {
            Passed::Hit(t) => {
                return Passed::Hit(t);
            }
            Passed::Nothing => {
                return Passed::Nothing;
            }
            Passed::Never => {
                return Passed::Never;
            }
            Passed::CutOff(t) => {
                return Passed::CutOff(t);
            }
            Passed::GaveUp(t) => {
                if !is_far(limits::size(layout, first), limits::size(layout, t)) {
                    return Passed::GaveUp(t);
                }
                first = t;
                left -= 1;
            }
        }
    }
    Passed::GaveUp(first)
}

// The attempts frame by frame, with a limit on their effort.
fn by_attempts(
    m: &[u32],
    layout: Layout,
    order: &[u32],
    first: usize,
    q: Query,
    limit: u64,
    work: &mut [u32],
) -> Passed
    requires { StageFits m.now layout order.now q.b q.k q.d work.old }
    ensures { Shows (circuit_in m.now) q.k (conflict_stage (circuit_in m.now) q.b limit first q.d)
        work.new result }
{
    match attempts::attempt_frames(m, layout, order, first, q, limit, work) {
        Staged::Hit(t) => Passed::Hit(t),
        Staged::Nothing => Passed::Nothing,
        Staged::GaveUp(t) => Passed::GaveUp(t),
        Staged::CutOff(t) => Passed::CutOff(t),
    }
}

// What comes after the layers of round r, from frame `first` on.
fn pass_later(
    m: &[u32],
    layout: Layout,
    order: &[u32],
    first: usize,
    r: usize,
    q: Query,
    work: &mut [u32],
) -> Passed
    requires stage_fits { StageFits m.now layout order.now q.b q.k q.d work.old }
    requires first_le_k { (first ≤ q.k) × (r ≤ 7) × stages.NoneBefore (question (circuit_in m.now) q.b) first }
    ensures { LaterIs (circuit_in m.now) q.b q.k q.d first r work.new result }
{
    let share = share_in(r);
    match by_sets(m, layout, order, first, q, share, work) {
        Passed::Hit(t) => Passed::Hit(t),
        Passed::Nothing => Passed::Nothing,
        Passed::Never => Passed::Never,
        Passed::GaveUp(t) => {
            let limit = limit_in(6000, r);
            by_attempts(m, layout, order, t, q, limit, work)
        }
        Passed::CutOff(t) => Passed::CutOff(t),
    }
}

// Round r, from frame `first` on.
fn pass_round(
    m: &[u32],
    layout: Layout,
    order: &[u32],
    first: usize,
    r: usize,
    q: Query,
    work: &mut [u32],
) -> Passed
    requires stage_fits { StageFits m.now layout order.now q.b q.k q.d work.old }
    requires first_le_k { (first ≤ q.k) × (r ≤ 7) × stages.NoneBefore (question (circuit_in m.now) q.b) first }
    ensures { RoundIs (circuit_in m.now) q.b q.k q.d first r work.new result }
{
    let limit = limit_in(300000, r);
    match by_layers(m, layout, order, first, q, limit, work) {
        Passed::Hit(t) => Passed::Hit(t),
        Passed::Nothing => Passed::Nothing,
        Passed::Never => Passed::Never,
        Passed::GaveUp(t) => pass_later(m, layout, order, t, r, q, work),
        Passed::CutOff(t) => Passed::CutOff(t),
    }
}

// All rounds. After a hit, working memory begins with the free bits of the first one.
pub fn pass_stages(m: &[u32], layout: Layout, order: &[u32], q: Query, work: &mut [u32]) -> Rounds
    requires { StageFits m.now layout order.now q.b q.k q.d work.old }
    ensures { RoundsAre (circuit_in m.now) q.b q.k q.d work.new result }
{
    let mut first = 0usize;
    let mut r = 0usize;
    while r < 8 {
        match pass_round(m, layout, order, first, r, q, work) {
            Passed::Hit(t) => {
                return Rounds::Hit(t);
            }
            Passed::Nothing => {
                return Rounds::Nothing;
            }
            Passed::Never => {
                return Rounds::Never;
            }
            Passed::GaveUp(t) => {
                first = t;
                r += 1;
            }
            Passed::CutOff(t) => {
                return Rounds::Left(t);
            }
        }
    }
    Rounds::Left(first)
}
