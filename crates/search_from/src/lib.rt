// The search of one frame from a place on.
#![tactic(auto)]

ghost use Rattle.std.specs.Prelude.{◌≡◌};
ghost use Rattle.layout.specs.Words.{circuit_in};
ghost use Rattle.search.specs.Chosen.{said};
ghost use Rattle.place_search.specs.Operation.{PlaceSearched};
ghost use Rattle.place_decision.specs.Reach.{place_chosen};
ghost use Rattle.search_from.specs.Steps.{FromFits, AnsweredFrom};

use layout::Layout;
use place_decision::PlaceFrame;
use place_enumeration::PlaceQuery;
use place_limits::PlaceTerms;
use search::SearchAnswer;

// The search of a circuit that is ready.
fn search_ready(
    m: &[u32],
    layout: Layout,
    order: &[u32],
    q: PlaceTerms,
    work: &mut [u32],
    out: &mut [u8],
) -> SearchAnswer
    requires { FromFits m.now layout order.now q.b q.t q.place q.d work.old out.old }
    ensures { AnsweredFrom (circuit_in m.now) q.b q.t q.place q.d out.old (said result) out.new }
{
    let b = q.b as usize;
    let t = q.t as usize;
    let place = q.place;
    let d = q.d;
    match place_decision::decide_from(m, layout, order, PlaceQuery { b, t, place, d }, work) {
        PlaceFrame::Hit => search::show_found(out, m, layout, b as u32, t, work),
        PlaceFrame::Clear => SearchAnswer::Nothing(t as u32, false),
        PlaceFrame::Spent(reached) => SearchAnswer::Spent(t as u32, reached),
    }
}

// Whether bad line b can be reached at frame t by a sequence at or after a place, with a budget of d sequences.
pub fn search_from(m: &[u32], q: PlaceTerms, work: &mut [u32], out: &mut [u8]) -> SearchAnswer
    ensures { PlaceSearched place_chosen m.now q.b q.t q.place q.d work.old out.old (said result)
        work.new out.new }
{
    let mut order = [0u32; 3072];
    let Some(layout) = circuit::held_in(m, &mut order) else {
        return SearchAnswer::Refused(9);
    };
    let inputs = layout.i;
    if let Err(e) = place_limits::check_from(layout, inputs, q, work.len(), out.len()) {
        return SearchAnswer::Refused(e.number());
    }
    search_ready(m, layout, &order, q, work, out)
}
