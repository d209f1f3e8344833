// The search for a user: among the sequences that obey the user's pins.
#![tactic(auto)]

ghost use Rattle.std.specs.Prelude.{◌≡◌, ◌+◌, ◌≤◌, length};
ghost use Rattle.aiger.specs.Text.{digits};
ghost use Rattle.layout.specs.Words.{circuit_in};
ghost use Rattle.pins.specs.Pins.{pins_of};
ghost use Rattle.pinning.specs.Operations.{PinnedSearched};
ghost use Rattle.search.specs.Chosen.{chosen, said};
ghost use Rattle.pinned_search.specs.Steps.{FullFits, InFull, PinnedFits, TextIs, OutputIs};

use layout::Layout;
use search::{SearchAnswer, Terms};

// Searches the pinned circuit. Found leaves its witness, which has the free inputs alone, at the front of text.
fn search_text(
    m: &[u32],
    layout: Layout,
    pins: &[u8],
    user: usize,
    q: Terms,
    work: &mut [u32],
    text: &mut [u8],
) -> SearchAnswer
    requires { PinnedFits m.now layout user q.b q.k q.d (length work.old) (length text.old) }
    ensures { TextIs (circuit_in m.now) (pins_of pins.now user) q.b q.k q.d text.old (said result)
        text.new }
{
    let mut table = [2u8; 4097];
    let mut words = [0u32; 33032];
    pinning::pin_circuit(m, layout, pins, user, &mut table, &mut words);
    search::search(&words, q.b, q.k, q.d, work, text)
}

// Where the rows of a witness for b begin.
fn rows_at(latches: usize, b: u32) -> usize
    requires { latches ≤ 1024 }
    ensures { result ≡ 4 + length (digits b) + (latches + 1) }
{
    4 + numbers::digit_count(b) + (latches + 1)
}

// The answer of a search of the pinned circuit, whose witness stands at the front of out, as that of the circuit: the witness has the bits
// of all inputs.
pub fn in_full(
    answer: SearchAnswer,
    layout: Layout,
    b: u32,
    pins: &[u8],
    user: usize,
    out: &mut [u8],
) -> SearchAnswer
    requires { FullFits layout user b answer (length out.old) }
    ensures { InFull layout (pins_of pins.now user) b answer out.old (said result) out.new }
{
    match answer {
        SearchAnswer::Found(t, _) => {
            let inputs = layout.i;
            let start = rows_at(layout.l, b);
            expansion::expand(out, start, t as usize, inputs, pins, user);
            let length = limits::witness_length(layout, b, t as usize);
            SearchAnswer::Found(t, length as u32)
        }
        SearchAnswer::Nothing(n, never) => SearchAnswer::Nothing(n, never),
        SearchAnswer::Spent(t, reached) => SearchAnswer::Spent(t, reached),
        SearchAnswer::Refused(n) => SearchAnswer::Refused(n),
    }
}

// Searches under the pins of a user who is known, where all tests pass.
fn search_known(
    m: &[u32],
    layout: Layout,
    pins: &[u8],
    user: usize,
    q: Terms,
    work: &mut [u32],
    out: &mut [u8],
) -> SearchAnswer
    requires { PinnedFits m.now layout user q.b q.k q.d (length work.old) (length out.old) }
    ensures { OutputIs (circuit_in m.now) (pins_of pins.now user) q.b q.k q.d out.old (said result)
        out.new }
{
    let b = q.b as u32;
    let answer = search_text(m, layout, pins, user, q, work, out);
    in_full(answer, layout, b, pins, user, out)
}

// Searches under the pins of a user who is known, in a copy of the circuit without the inputs that are held.
fn search_held(
    m: &[u32],
    pins: &[u8],
    user: usize,
    q: Terms,
    work: &mut [u32],
    out: &mut [u8],
) -> SearchAnswer
    requires { user ≤ 1 }
    ensures { PinnedSearched chosen m.now (pins_of pins.now user) q.b q.k q.d work.old
        out.old (said result)
        (work.new, out.new) }
{
    let Some(layout) = circuit::test(m) else {
        return SearchAnswer::Refused(9);
    };
    if let Err(e) = search::check_search(layout, q.b, q.k, q.d, work.len(), out.len()) {
        return SearchAnswer::Refused(e.number());
    }
    search_known(m, layout, pins, user, q, work, out)
}

// Whether the bad line can be reached within the bound by a sequence that obeys the pins of a user who is known.
// Where the user holds no input of the circuit, that is the plain operation, and nothing is copied. The call under pins stands once for
// each user: called in one place it would be inlined, and its copies would take their stack in every call.
pub fn search(
    m: &[u32],
    pins: &[u8],
    user: usize,
    q: Terms,
    work: &mut [u32],
    out: &mut [u8],
) -> SearchAnswer
    requires { user ≤ 1 }
    ensures { PinnedSearched chosen m.now (pins_of pins.now user) q.b q.k q.d work.old
        out.old (said result)
        (work.new, out.new) }
{
    if pinning::none_held(m, pins, user) {
        return search::search(m, q.b, q.k, q.d, work, out);
    }
    if user == 0 {
        return search_held(m, pins, 0, q, work, out);
    }
    search_held(m, pins, 1, q, work, out)
}
