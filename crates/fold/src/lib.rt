// The operation fold: the hit of a bad line at a frame as a circuit without latches.
#![tactic(auto)]

ghost use Rattle.std.specs.Prelude.{◌≡◌, ◌+◌, ◌-◌, ◌*◌, ◌≤◌, ◌<◌, length};
ghost use Rattle.aiger.specs.Write.{write};
ghost use Rattle.aiger.specs.Circuit.{Circuit};
ghost use Rattle.aiger.specs.Operations.{judge, fold_tests, Folded};
ghost use Rattle.layout.specs.Words.{circuit_in};
ghost use Rattle.limits.specs.Limits.{Limited, CountsOf, told};
ghost use Rattle.nodes.specs.Graph.{node_of};
ghost use Rattle.nodes.specs.Edges.{edge_word};
ghost use Rattle.output.specs.Output.{Room, Placed};
ghost use Rattle.fold.specs.Text.{
  literal_of,
  literal_word,
  gate_text,
  gates_text,
  inputs_text,
  head_text,
  NodeFits,
  GateFits,
  GatesFit,
  folded_in,
  Writable,
  Shown,
};
ghost use Rattle.fold.specs.Chosen.{chosen};
ghost use Rattle.fold.specs.Answer.{answered, FoldFits, FoldShown};

use layout::Layout;
use literals::{Lit, Var};
use nodes::{Edge, Graph, NUMBER, RIGHT};
use refusals::Refusal;

// What is folded: the hit of bad line b at frame t.
#[derive(Clone, Copy)]
pub struct Target {
    pub b: u64,
    pub t: u64,
}

// The length of the text, or the number of the refusal.
#[derive(Clone, Copy)]
pub enum FoldAnswer {
    Length(usize),
    Refused(u32),
}

// Writes the header for so many free bits and gates.
fn write_head(out: &mut [u8], free: usize, kept: usize) -> usize
    requires { (free + kept < 65536) × Room out.old 0 (head_text free kept) }
    ensures { Placed out.old 0 (head_text free kept) result out.new }
{
    let all = (free + kept) as u32;
    let inputs = free as u32;
    let gates = kept as u32;
    let row = [all, inputs, 0, 1, gates, 0, 0];
    out[0] = b'a';
    out[1] = b'a';
    out[2] = b'g';
    out[3] = b' ';
    output::put_row(&row, 0, 7, out, 4)
}

// Writes a line for each input: 2, 4 and so on.
fn write_inputs(out: &mut [u8], at: usize, free: usize) -> usize
    requires { (free < 65536) × Room out.old at (inputs_text free) }
    ensures { Placed out.old at (inputs_text free) result out.new }
{
    let mut end = at;
    for j in 0..free {
        end = output::put_ended(out, end, 2 * (j as u32 + 1), 0);
    }
    end
}

// The literal of an edge: its variable is the number of the edge's node.
fn literal(work: &[u32], e: Edge) -> Lit
    requires { NodeFits work.now e.0.0 }
    ensures { result ≡ literal_of work.now e }
{
    let k = e.0.0 as usize;
    Lit(Var(work[16 * k + NUMBER]), e.1)
}

// The word of the literal of the edge whose word is w.
fn literal_word(work: &[u32], w: u32) -> u32
    requires { NodeFits work.now (node_of w) }
    ensures { result ≡ literal_word work.now w }
{
    literal(work, Edge::from_word(w)).word() as u32
}

// Writes the line of the gate at node k, if it has a number.
fn write_gate(work: &[u32], k: usize, out: &mut [u8], at: usize) -> usize
    requires { GateFits work.now k × Room out.old at (gate_text work.now k) }
    ensures { Placed out.old at (gate_text work.now k) result out.new }
{
    let number = work[16 * k + NUMBER];
    if number == 0 {
        return at;
    }
    let own = Lit(Var(number), false).word() as u32;
    let left = literal_word(work, work[16 * k]);
    let right = literal_word(work, work[16 * k + RIGHT]);
    let row = [own, left, right];
    output::put_row(&row, 0, 3, out, at)
}

// Writes the lines of the gates that have numbers.
fn write_gates(work: &[u32], g: Graph, out: &mut [u8], at: usize) -> usize
    requires { GatesFit work.now g × Room out.old at (gates_text work.now (g.free + 1) (g.nodes - (g.free + 1))) }
    ensures { Placed out.old at (gates_text work.now (g.free + 1) (g.nodes - (g.free + 1))) result out.new }
{
    let first = g.free + 1;
    let gates = g.nodes - first;
    let mut end = at;
    for j in 0..gates {
        end = write_gate(work, first + j, out, end);
    }
    end
}

// Writes the circuit of the root's cone, whose nodes are numbered, at the front of out.
fn write_folded(work: &[u32], g: Graph, root: Edge, kept: usize, out: &mut [u8]) -> usize
    requires writable { Writable work.now g (edge_word root) kept }
    requires root_in_bounds { length (write (folded_in work.now g (edge_word root))) ≤ length out.old }
    ensures { Shown (write (folded_in work.now g (edge_word root))) out.old result out.new }
{
    let free = g.free;
    let output = literal(work, root).word() as u32;
    let inputs = write_head(out, free, kept);
    let line = write_inputs(out, inputs, free);
    let gates = output::put_ended(out, line, output, 0);
    write_gates(work, g, out, gates)
}

// The first of the tests 10 to 13 that fails, or that all pass. room is the words of working memory and len the bytes of output.
pub fn check_fold(layout: Layout, b: u64, t: u64, room: usize, len: usize) -> Result<(), Refusal>
    requires { Limited layout }
    ensures { (c : Circuit) → CountsOf c layout → judge (fold_tests c b t room len) ≡ told result }
{
    // Not `?`: the edit thirteen_for_all plants the number that is handed on here.
    if let Err(e) = limits::check_bounds(layout, b, t, true, room) {
        return Err(e);
    }
    let units = limits::size(layout, t as usize);
    if len < 24 * units + 64 {
        return Err(Refusal::Output);
    }
    Ok(())
}

// Folds frame t of a circuit that is ready.
fn fold_frame(
    m: &[u32],
    layout: Layout,
    order: &[u32],
    b: usize,
    t: usize,
    work: &mut [u32],
    out: &mut [u8],
) -> usize
    requires { FoldFits m.now layout order.now b t work.old out.old }
    ensures { FoldShown (circuit_in m.now) b t out.old result out.new }
{
    let room = limits::size(layout, t);
    let made = unroll::unroll(work, m, layout, order, b, t, room);
    let graph = made.graph;
    let root = made.edge;
    cone::mark(work, graph, root);
    let kept = cone::assign(work, graph);
    write_folded(work, graph, root, kept, out)
}

// The operation fold: writes the hit of bad line b at frame t as a circuit without latches.
pub fn fold(m: &[u32], b: u64, t: u64, work: &mut [u32], out: &mut [u8]) -> FoldAnswer
    ensures { Folded chosen m.now b t work.old out.old (answered result) work.new out.new }
{
    let mut order = [0u32; 3072];
    let Some(layout) = circuit::held_in(m, &mut order) else {
        return FoldAnswer::Refused(9);
    };
    if let Err(e) = check_fold(layout, b, t, work.len(), out.len()) {
        return FoldAnswer::Refused(e.number());
    }
    let length = fold_frame(m, layout, &order, b as usize, t as usize, work, out);
    FoldAnswer::Length(length)
}
