// The search: by rounds of stages, and from where these are cut off frame after frame, until one has a hit, one is spent, or the bound is
// passed.
#![tactic(auto)]

ghost use Rattle.std.specs.Prelude.{◌≡◌, false, ℕ, ◌+◌, ◌-◌, ◌*◌, ◌≤◌, length};
ghost use Rattle.aiger.specs.Circuit.{Circuit};
ghost use Rattle.aiger.specs.Operations.{judge, search_tests, Searched};
ghost use Rattle.layout.specs.Words.{circuit_in};
ghost use Rattle.limits.specs.Limits.{Limited, CountsOf, told};
ghost use Rattle.witness.specs.Writing.{WitnessFits};
ghost use Rattle.decision.specs.Reach.{decision_of};
ghost use Rattle.decision.specs.Decided.{SpentAt};
ghost use Rattle.stages.specs.Choice.{chosen_from};
ghost use Rattle.search.specs.Chosen.{outcome_chosen, never_chosen, chosen, said};
ghost use Rattle.search.specs.Steps.{SearchFits, FoundShown, SpentTold, Answered};

use attempts::Query;
use enumeration::Frame;
use layout::Layout;
use refusals::Refusal;
use staged::Rounds;

// What a search answers: the first frame with a hit, and the length of the witness; no frame up to the bound has one, and whether it is
// known that no frame at all has one; the frame whose budget is spent, and the place that was reached in it; the number of a refusal.
#[derive(Clone, Copy)]
pub enum SearchAnswer {
    Found(u32, u32),
    Nothing(u32, bool),
    Spent(u32, u64),
    Refused(u32),
}

// The terms of a search: a bad line, a bound, and a budget for each frame.
#[derive(Clone, Copy)]
pub struct Terms {
    pub b: u64,
    pub k: u64,
    pub d: u64,
}

// The first of the tests 10 to 13 that fails, or that all pass. room is the words of working memory and len the bytes of output.
pub fn check_search(
    layout: Layout,
    b: u64,
    k: u64,
    d: u64,
    room: usize,
    len: usize,
) -> Result<(), Refusal>
    requires { Limited layout }
    ensures { (c : Circuit) → CountsOf c layout → judge (search_tests c b k d room len) ≡ told result }
{
    let budget = limits::is_budget(d);
    limits::check_bounds(layout, b, k, budget, room)?;
    if len < limits::witness_length(layout, b as u32, k as usize) {
        return Err(Refusal::Output);
    }
    Ok(())
}

// Writes the witness of the sequence of frame t whose free bits stand in free to the front of out, and answers found.
pub fn show_found(
    out: &mut [u8],
    m: &[u32],
    layout: Layout,
    b: u32,
    t: usize,
    free: &[u32],
) -> SearchAnswer
    requires { WitnessFits out.old m.now layout b t free.now }
    ensures { FoundShown (circuit_in m.now) b t free.now out.old (said result) out.new }
{
    witness::write_witness(out, m, layout, b, t, free);
    let length = limits::witness_length(layout, b, t);
    SearchAnswer::Found(t as u32, length as u32)
}

// Spent at frame t, with the place that was reached there, as working memory tells it.
fn tell_spent(work: &[u32], layout: Layout, t: usize, d: u64) -> SearchAnswer
    requires { Limited layout × (t ≤ 255) × (layout.u + layout.i * (t + 1) ≤ length work.now) × (d ≤ 4294967296) }
    ensures { (c : Circuit) (b : ℕ) → CountsOf c layout → SpentAt c b t d work.now → SpentTold c b t d (said result) }
{
    let n = layout.u + layout.i * (t + 1);
    SearchAnswer::Spent(t as u32, place_decision::reached_number(work, n, d))
}

// The search of frames `start` to k of a circuit that is ready, frame after frame.
fn search_from(
    m: &[u32],
    layout: Layout,
    order: &[u32],
    start: usize,
    q: Terms,
    work: &mut [u32],
    out: &mut [u8],
) -> SearchAnswer
    requires search_fits { SearchFits m.now layout order.now q.b q.k q.d work.old out.old }
    requires start_bound { (start ≤ q.k + 1)
        × (outcome_chosen (circuit_in m.now) q.b q.k q.d
        ≡ chosen_from (λ u. decision_of (circuit_in m.now) q.b u q.d) q.k start (q.k + 1 - start))
        × (never_chosen (circuit_in m.now) q.b q.k q.d ≡ false) }
    ensures { Answered (circuit_in m.now) q.b q.k q.d out.old (said result) out.new }
{
    let b = q.b as usize;
    let k = q.k as usize;
    let d = q.d;
    let mut t = start;
    while t <= k {
        match decision::decide(m, layout, order, b, t, d, work) {
            Frame::Hit => {
                return show_found(out, m, layout, b as u32, t, work);
            }
            Frame::Clear => {
                t += 1;
            }
            Frame::Spent => {
                return tell_spent(work, layout, t, d);
            }
        }
    }
    SearchAnswer::Nothing(k as u32, false)
}

// The search of a circuit that is ready: by rounds of stages, and what they leave frame after frame.
fn search_frames(
    m: &[u32],
    layout: Layout,
    order: &[u32],
    q: Terms,
    work: &mut [u32],
    out: &mut [u8],
) -> SearchAnswer
    requires { SearchFits m.now layout order.now q.b q.k q.d work.old out.old }
    ensures { Answered (circuit_in m.now) q.b q.k q.d out.old (said result) out.new }
{
    let b = q.b as usize;
    let k = q.k as usize;
    let d = q.d;
    match staged::pass_stages(m, layout, order, Query { b, k, d }, work) {
        Rounds::Hit(t) => show_found(out, m, layout, b as u32, t, work),
        Rounds::Nothing => SearchAnswer::Nothing(k as u32, false),
        Rounds::Never => SearchAnswer::Nothing(k as u32, true),
        Rounds::Left(t) => search_from(m, layout, order, t, q, work, out),
    }
}

// Whether bad line b can be reached within bound k, with a budget of d sequences for each frame.
pub fn search(m: &[u32], b: u64, k: u64, d: u64, work: &mut [u32], out: &mut [u8]) -> SearchAnswer
    ensures { Searched chosen m.now b k d work.old out.old (said result) work.new out.new }
{
    let mut order = [0u32; 3072];
    let Some(layout) = circuit::held_in(m, &mut order) else {
        return SearchAnswer::Refused(9);
    };
    if let Err(e) = check_search(layout, b, k, d, work.len(), out.len()) {
        return SearchAnswer::Refused(e.number());
    }
    search_frames(m, layout, &order, Terms { b, k, d }, work, out)
}
