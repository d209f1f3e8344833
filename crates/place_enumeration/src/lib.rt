// The first hit of one frame at or after a place: the sequences from there on are tried in counting order, 64 at a time.
#![tactic(auto)]

ghost use Rattle.layout.specs.Words.{circuit_in};
ghost use Rattle.place_enumeration.specs.From.{PlaceFits, FrameFrom};

use enumeration::{Frame, Question, Span};
use layout::Layout;

// What is asked of one frame: bad line b at frame t, from a place on, with a budget of d sequences.
#[derive(Clone, Copy)]
pub struct PlaceQuery {
    pub b: usize,
    pub t: usize,
    pub place: u64,
    pub d: u64,
}

// The first hit of b at frame t at or after a place. Where there is one its free bits are left at the front of working memory.
pub fn first_hit_from(
    m: &[u32],
    layout: Layout,
    order: &[u32],
    q: PlaceQuery,
    work: &mut [u32],
) -> Frame
    requires { PlaceFits work.old m.now layout order.now q.b q.t q.place q.d }
    ensures { FrameFrom (circuit_in m.now) q.b q.t q.place q.d work.new result }
{
    let b = q.b;
    let t = q.t;
    let from = q.place;
    let free = layout.u;
    let n = free + layout.i * (t + 1);
    let end = from + q.d;
    let to = places::end_of(n, end);
    let x = enumeration::first_in(
        m,
        layout,
        order,
        Question { b, t, n, free },
        Span { from, to },
    );
    if x < to {
        enumeration::put_free(x, n, work);
        return Frame::Hit;
    }
    let done = places::passes_all(n, end);
    if done { Frame::Clear } else { Frame::Spent }
}
