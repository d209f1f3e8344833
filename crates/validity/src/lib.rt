// Whether the circuit that words encode is right: the causes 6, 7 and 8. A right one has its gates put in an order for evaluation.
#![tactic(auto)]

ghost use Rattle.std.specs.Prelude.{◌≤◌, length};
ghost use Rattle.layout.specs.Words.{circuit_in};
ghost use Rattle.layout.specs.Layout.{Counted};
ghost use Rattle.validity.specs.Validity.{Checks, OrderLeft};

use refusals::Refusal;

// The first cause from 6 to 8 that refuses the circuit of w, and order is then all 0; or none, and order begins with the gates in an order
// of evaluation, and is after them as it was.
pub fn check(w: &[u32], order: &mut [u32]) -> Result<(), Refusal>
    requires counted { Counted w.now }
    requires in_bounds { 3072 ≤ length order.old }
    ensures { Checks (circuit_in w.now) order.new result
        × OrderLeft (circuit_in w.now) order.old order.new result }
{
    let mut table = [0u32; 4097];
    if !variables::literals_right(w, &mut table) {
        variables::clear(order);
        return Err(Refusal::Literals);
    }
    if !variables::used_defined(w, &table) {
        variables::clear(order);
        return Err(Refusal::Undefined);
    }
    if !toposort::ordered(w, &table, order) {
        return Err(Refusal::Cycle);
    }
    Ok(())
}
