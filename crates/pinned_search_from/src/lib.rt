// The search from a place for a user: among the sequences that obey the user's pins.
#![tactic(auto)]

ghost use Rattle.std.specs.Prelude.{◌≡◌, ◌≤◌, length};
ghost use Rattle.layout.specs.Words.{circuit_in};
ghost use Rattle.pins.specs.Pins.{pins_of};
ghost use Rattle.pinning.specs.FromPlace.{PinnedSearchedFrom};
ghost use Rattle.place_decision.specs.Reach.{place_chosen};
ghost use Rattle.search.specs.Chosen.{said};
ghost use Rattle.pinned_search_from.specs.Steps.{PinnedFromFits, FromTextIs, FromOutputIs};

use layout::Layout;
use place_limits::PlaceTerms;
use search::SearchAnswer;

// Searches the pinned circuit. Found leaves its witness, which has the free inputs alone, at the front of text.
fn search_text(
    m: &[u32],
    layout: Layout,
    pins: &[u8],
    user: usize,
    q: PlaceTerms,
    work: &mut [u32],
    text: &mut [u8],
) -> SearchAnswer
    requires { PinnedFromFits m.now layout (pins_of pins.now user) user q.b q.t q.place q.d (length work.old) (length text.old) }
    ensures { FromTextIs (circuit_in m.now) (pins_of pins.now user) q.b q.t q.place q.d text.old
        (said result) text.new }
{
    let mut table = [2u8; 4097];
    let mut words = [0u32; 33032];
    pinning::pin_circuit(m, layout, pins, user, &mut table, &mut words);
    search_from::search_from(&words, q, work, text)
}

// Searches under the pins of a user who is known, where all tests pass.
fn search_known(
    m: &[u32],
    layout: Layout,
    pins: &[u8],
    user: usize,
    q: PlaceTerms,
    work: &mut [u32],
    out: &mut [u8],
) -> SearchAnswer
    requires { PinnedFromFits m.now layout (pins_of pins.now user) user q.b q.t q.place q.d (length work.old) (length out.old) }
    ensures { FromOutputIs (circuit_in m.now) (pins_of pins.now user) q.b q.t q.place q.d out.old
        (said result) out.new }
{
    let b = q.b as u32;
    let answer = search_text(m, layout, pins, user, q, work, out);
    pinned_search::in_full(answer, layout, b, pins, user, out)
}

// Searches under the pins of a user who is known, in a copy of the circuit without the inputs that are held.
fn search_held(
    m: &[u32],
    pins: &[u8],
    user: usize,
    q: PlaceTerms,
    work: &mut [u32],
    out: &mut [u8],
) -> SearchAnswer
    requires { user ≤ 1 }
    ensures { PinnedSearchedFrom place_chosen m.now (pins_of pins.now user) q.b q.t q.place q.d
        work.old out.old (said result) (work.new, out.new) }
{
    let Some(layout) = circuit::test(m) else {
        return SearchAnswer::Refused(9);
    };
    let inputs = expansion::free_inputs(pins, user, layout.i);
    if let Err(e) = place_limits::check_from(layout, inputs, q, work.len(), out.len()) {
        return SearchAnswer::Refused(e.number());
    }
    search_known(m, layout, pins, user, q, work, out)
}

// Whether the bad line can be reached at the frame by a sequence at or after the place, among those that obey the pins of a user who is
// known. Where the user holds no input of the circuit, that is the plain operation, and nothing is copied. The call under pins stands once
// for each user, so that it is not inlined and its copies take no stack in other calls.
pub fn search_from(
    m: &[u32],
    pins: &[u8],
    user: usize,
    q: PlaceTerms,
    work: &mut [u32],
    out: &mut [u8],
) -> SearchAnswer
    requires { user ≤ 1 }
    ensures { PinnedSearchedFrom place_chosen m.now (pins_of pins.now user) q.b q.t q.place q.d
        work.old out.old (said result) (work.new, out.new) }
{
    if pinning::none_held(m, pins, user) {
        return search_from::search_from(m, q, work, out);
    }
    if user == 0 {
        return search_held(m, pins, 0, q, work, out);
    }
    search_held(m, pins, 1, q, work, out)
}
