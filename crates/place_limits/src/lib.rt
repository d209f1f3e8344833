// The tests of a search from a place.
#![tactic(auto)]

ghost use Rattle.std.specs.Prelude.{◌≤◌};
ghost use Rattle.limits.specs.Limits.{Limited};
ghost use Rattle.place_limits.specs.Tests.{PlaceRuling};

use layout::Layout;
use refusals::Refusal;

// The terms of a search from a place: a bad line, a frame, the starting place, and a budget.
#[derive(Clone, Copy)]
pub struct PlaceTerms {
    pub b: u64,
    pub t: u64,
    pub place: u64,
    pub d: u64,
}

// The first of the tests 10, 11, 19, 12 and 13 that fails, or that all pass. inputs is how many inputs are free, room the words of
// working memory and len the bytes of output.
pub fn check_from(
    layout: Layout,
    inputs: usize,
    q: PlaceTerms,
    room: usize,
    len: usize,
) -> Result<(), Refusal>
    requires { Limited layout × (inputs ≤ layout.i) }
    ensures { PlaceRuling layout inputs q.b q.t q.place q.d room len result }
{
    let budget = limits::is_budget(q.d);
    limits::check_line(layout, q.b, q.t, budget)?;
    let t = q.t as usize;
    if !place_search::is_place(layout.u + inputs * (t + 1), q.place) {
        return Err(Refusal::Place);
    }
    limits::check_size(layout, t, room)?;
    if len < limits::witness_length(layout, q.b as u32, t) {
        return Err(Refusal::Output);
    }
    Ok(())
}
