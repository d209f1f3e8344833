// The fold for a user: of the pinned circuit, whose free bits are those that the user's pins leave.
#![tactic(auto)]

ghost use Rattle.std.specs.Prelude.{◌≡◌, ◌≤◌, length};
ghost use Rattle.layout.specs.Words.{circuit_in};
ghost use Rattle.pins.specs.Pins.{pins_of};
ghost use Rattle.pinning.specs.Operations.{PinnedFolded};
ghost use Rattle.fold.specs.Chosen.{chosen};
ghost use Rattle.fold.specs.Answer.{answered};
ghost use Rattle.pinned_fold.specs.Steps.{FoldFits, FoldIs};

use fold::{FoldAnswer, Target};
use layout::Layout;

// Folds under the pins of a user who is known, where all tests pass.
fn fold_known(
    m: &[u32],
    layout: Layout,
    pins: &[u8],
    user: usize,
    q: Target,
    work: &mut [u32],
    out: &mut [u8],
) -> FoldAnswer
    requires { FoldFits m.now layout user q.b q.t (length work.old) (length out.old) }
    ensures { FoldIs (circuit_in m.now) (pins_of pins.now user) q.b q.t out.old (answered result)
        out.new }
{
    let mut table = [2u8; 4097];
    let mut words = [0u32; 33032];
    pinning::pin_circuit(m, layout, pins, user, &mut table, &mut words);
    fold::fold(&words, q.b, q.t, work, out)
}

// Folds under the pins of a user who is known, in a copy of the circuit without the inputs that are held.
fn fold_held(
    m: &[u32],
    pins: &[u8],
    user: usize,
    q: Target,
    work: &mut [u32],
    out: &mut [u8],
) -> FoldAnswer
    requires { user ≤ 1 }
    ensures { PinnedFolded chosen m.now (pins_of pins.now user) q.b q.t work.old out.old
        (answered result)
        (work.new, out.new) }
{
    let Some(layout) = circuit::test(m) else {
        return FoldAnswer::Refused(9);
    };
    if let Err(e) = fold::check_fold(layout, q.b, q.t, work.len(), out.len()) {
        return FoldAnswer::Refused(e.number());
    }
    fold_known(m, layout, pins, user, q, work, out)
}

// Writes the hit of a bad line at a frame, under the pins of a user who is known, as a circuit without latches.
// Where the user holds no input of the circuit, that is the plain operation, and nothing is copied. The call under pins stands once for
// each user: called in one place it would be inlined, and its copies would take their stack in every call.
pub fn fold(
    m: &[u32],
    pins: &[u8],
    user: usize,
    q: Target,
    work: &mut [u32],
    out: &mut [u8],
) -> FoldAnswer
    requires { user ≤ 1 }
    ensures { PinnedFolded chosen m.now (pins_of pins.now user) q.b q.t work.old out.old
        (answered result)
        (work.new, out.new) }
{
    if pinning::none_held(m, pins, user) {
        return fold::fold(m, q.b, q.t, work, out);
    }
    if user == 0 {
        return fold_held(m, pins, 0, q, work, out);
    }
    fold_held(m, pins, 1, q, work, out)
}
