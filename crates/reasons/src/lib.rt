// Reasons as clauses. Reason 4g says that gate g is false or its left operand true, 4g + 1 the same of its right operand, 4g + 2 that g is
// true or one of its operands false, and 4c + 3 is the kept clause c.
#![tactic(auto)]

ghost use Rattle.std.specs.Prelude.{◌≡◌, ◌<◌};
ghost use Rattle.reasons.specs.Reason as R;

use memory::{Arena, FACT, Netlist, field, head, literal, opposite};

// Whether literal l is false in every hit, as far as that is noted.
pub fn is_false(work: &[u32], nodes: u32, l: u32) -> bool
    ensures { result ≡ R.is_false work.now nodes l }
{
    let fact = field(work, nodes, l / 2, FACT);
    fact % 4 + l % 2 == 2
}

// Whether r is a reason.
pub fn is_reason(net: Netlist, arena: Arena, r: u32) -> bool
    ensures { result ≡ R.is_reason net arena r }
{
    if r % 4 == 3 {
        r / 4 < arena.count
    } else {
        r / 4 < net.nodes
    }
}

// How many literals reason r has.
pub fn length_of(work: &[u32], net: Netlist, r: u32) -> u32
    ensures { result ≡ R.length_of work.now net r }
{
    if r % 4 == 3 {
        return head(work, net.words, r / 4, 1) % 1048576;
    }
    if r % 4 == 2 { 3 } else { 2 }
}

// Literal i of kept clause c.
pub fn kept_literal(work: &[u32], net: Netlist, c: u32, i: u32) -> u32
    ensures { result ≡ R.kept_literal work.now net c i }
{
    literal(work, net.nodes, head(work, net.words, c, 0), i)
}

// Literal i of the clause that gate g is false or its operand k true.
fn below_literal(work: &[u32], nodes: u32, g: u32, k: u8, i: u32) -> u32
    requires { g < 1073741824 }
    ensures { result ≡ R.below_literal work.now nodes g k i }
{
    if i == 0 {
        return 2 * g + 1;
    }
    field(work, nodes, g, k)
}

// Literal i of the clause that gate g is true or one of its operands false.
fn above_literal(work: &[u32], nodes: u32, g: u32, i: u32) -> u32
    requires { g < 1073741824 }
    ensures { result ≡ R.above_literal work.now nodes g i }
{
    if i == 0 {
        return 2 * g;
    }
    if i == 1 {
        return opposite(field(work, nodes, g, 0));
    }
    opposite(field(work, nodes, g, 1))
}

// Literal i of reason r.
pub fn literal_of(work: &[u32], net: Netlist, r: u32, i: u32) -> u32
    ensures { result ≡ R.literal_of work.now net r i }
{
    if r % 4 == 3 {
        return kept_literal(work, net, r / 4, i);
    }
    if r % 4 == 2 {
        return above_literal(work, net.nodes, r / 4, i);
    }
    below_literal(work, net.nodes, r / 4, (r % 4) as u8, i)
}
