// What a frame has from a place on: the first sequences are tried on the circuit. Then the graph of the hit is searched by conflicts, with
// the floor at the place, and where that decides nothing the sequences from the floor on are tried on the circuit.
#![tactic(auto)]

ghost use Rattle.std.specs.Prelude.{◌≡◌, cond, ℕ, ◌+◌, ◌*◌, ◌≤◌, min, max, length};
ghost use Rattle.aiger.specs.Bits.{nonzero};
ghost use Rattle.aiger.specs.Circuit.{Circuit};
ghost use Rattle.aiger.specs.Frames.{free_bits, size};
ghost use Rattle.aiger.specs.Search.{greatest};
ghost use Rattle.layout.specs.Words.{circuit_in};
ghost use Rattle.place_enumeration.specs.From as F;
ghost use Rattle.decision.specs.Decided.{SpentAt};
ghost use Rattle.place_decision.specs.Decided.{PlaceFits, DecidedFrom, number_of, told_of, GoneOn, ReachedIs};

use conflicts::Verdict;
use enumeration::Frame;
use layout::Layout;
use place_enumeration::PlaceQuery;

// What a frame has from a place on: a first hit; no hit; or more sequences than the budget, none of which hits up to this place.
#[derive(Clone, Copy)]
pub enum PlaceFrame {
    Hit,
    Clear,
    Spent(u64),
}

// The number with one binary digit more; 2 to the power 63 where it is not below.
fn next_number(x: u64, digit: u32) -> u64
    requires { x ≤ 9223372036854775808 }
    ensures { result ≡ min 9223372036854775808 (2 * x + cond (nonzero digit) 1 0) }
{
    if 4611686018427387904 <= x {
        return 9223372036854775808;
    }
    if digit == 0 { 2 * x } else { 2 * x + 1 }
}

// The number that the first n words make as binary digits; 2 to the power 63 where it is not below.
fn number_of(bits: &[u32], n: usize) -> u64
    requires { n ≤ length bits.now }
    ensures { result ≡ min 9223372036854775808 (number_of bits.now n) }
{
    let mut x = 0u64;
    let mut j = 0usize;
    while j < n {
        x = next_number(x, bits[j]);
        j += 1;
    }
    x
}

// The smaller of x and the greatest number that is told.
fn capped(x: u64) -> u64
    ensures { result ≡ min greatest x }
{
    if x < 4611686018427387904 {
        x
    } else {
        4611686018427387904
    }
}

fn larger(a: u64, b: u64) -> u64
    ensures { result ≡ max a b }
{
    if a < b { b } else { a }
}

// What the sequences up to `end` have, as an answer.
fn tell(f: Frame, end: u64) -> PlaceFrame
    ensures { result ≡ told_of f (min greatest end) }
{
    match f {
        Frame::Hit => PlaceFrame::Hit,
        Frame::Clear => PlaceFrame::Clear,
        Frame::Spent => PlaceFrame::Spent(capped(end)),
    }
}

// What the sequences from the floor on have, where none from the place up to the floor hits.
fn go_on(
    m: &[u32],
    layout: Layout,
    order: &[u32],
    q: PlaceQuery,
    floor: u64,
    work: &mut [u32],
) -> PlaceFrame
    requires place_fits { F.PlaceFits work.old m.now layout order.now q.b q.t q.place q.d }
    requires place_le_greatest { q.place ≤ greatest }
    ensures { GoneOn (circuit_in m.now) q.b q.t q.place q.d floor work.new result }
{
    let end = q.place + q.d;
    if end <= floor {
        return PlaceFrame::Spent(capped(floor));
    }
    let b = q.b;
    let t = q.t;
    let place = larger(floor, q.place);
    let d = end - place;
    let f = place_enumeration::first_hit_from(
        m,
        layout,
        order,
        PlaceQuery { b, t, place, d },
        work,
    );
    tell(f, end)
}

// What frame t has from a place on, in exactly the words of the frame.
fn search_from(
    m: &[u32],
    layout: Layout,
    order: &[u32],
    q: PlaceQuery,
    work: &mut [u32],
) -> PlaceFrame
    requires place_fits { PlaceFits work.old m.now layout order.now q.b q.t q.place q.d }
    requires work_len { length work.old ≡ 16 * size (circuit_in m.now) q.t }
    ensures { DecidedFrom (circuit_in m.now) q.b q.t q.place q.d work.new result }
{
    let b = q.b;
    let t = q.t;
    let place = q.place;
    let made = decision::prepare(m, layout, order, b, t, work);
    let graph = made.graph;
    let root = made.edge;
    let e = decision::effort(graph.room, q.d);
    match place_solver::first_hit_from(work, graph, root, place, e) {
        Verdict::Found => PlaceFrame::Hit,
        Verdict::Clear(_) => PlaceFrame::Clear,
        Verdict::Out => {
            let floor = number_of(work, graph.free);
            let d = larger(q.d, decision::first_places(layout, t));
            go_on(m, layout, order, PlaceQuery { b, t, place, d }, floor, work)
        }
    }
}

// What frame t has from a place on. Where there is a first hit its free bits are left at the front of working memory.
pub fn decide_from(
    m: &[u32],
    layout: Layout,
    order: &[u32],
    q: PlaceQuery,
    work: &mut [u32],
) -> PlaceFrame
    requires { PlaceFits work.old m.now layout order.now q.b q.t q.place q.d }
    ensures { DecidedFrom (circuit_in m.now) q.b q.t q.place q.d work.new result }
{
    let b = q.b;
    let t = q.t;
    let place = q.place;
    let d = decision::first_places(layout, t);
    match place_enumeration::first_hit_from(m, layout, order, PlaceQuery { b, t, place, d }, work) {
        Frame::Hit => PlaceFrame::Hit,
        Frame::Clear => PlaceFrame::Clear,
        Frame::Spent => {
            let words = 16 * limits::size(layout, t);
            search_from(m, layout, order, q, &mut work[..words])
        }
    }
}

// The place that was reached in a frame that is spent in a search of all frames, as a number: n is how many free bits the frame has.
pub fn reached_number(work: &[u32], n: usize, d: u64) -> u64
    requires { (n ≤ length work.now) × (d ≤ 4294967296) }
    ensures { (c : Circuit) (b t : ℕ) → n ≡ free_bits c t → SpentAt c b t d work.now → ReachedIs c b t d result }
{
    if n <= 1024 {
        return capped(number_of(work, n));
    }
    larger(d, 16384)
}
