// Records of the nodes of a conflict search, 14 words a node, made in place of the records of a graph, 16 words a node. Word 10 of a
// graph's record is the node's number, or 0 for a gate that is left out; numbers rise with the nodes, and none is larger than its
// node's place in the graph, so that no record is overwritten before it is moved.
#![tactic(auto)]

ghost use Rattle.std.specs.Prelude.{◌≡◌, ◌*◌, ◌-◌, ◌≤◌, length};
ghost use Rattle.records.specs.Steps as S;

use memory::{FACT, FAN, field, get, place, put, set_field};

// Word f of the graph's record of node k.
fn word(work: &[u32], k: u32, f: u8) -> u32
    ensures { result ≡ S.word work.now k f }
{
    get(work, 16 * (k as usize) + (f as usize))
}

// The edge to node k, or to its complement where s is odd.
fn edge_to(k: u32, s: u32) -> u32
    ensures { result ≡ S.edge_to k s }
{
    2 * (k % 2147483648) + s % 2
}

// An edge of the graph, by the number of its node.
pub fn renumber(work: &[u32], e: u32) -> u32
    ensures { result ≡ S.renumber work.now e }
{
    edge_to(word(work, e / 2, 10), e)
}

// Stores a, b and c from word i on.
fn put_three(work: &mut [u32], i: usize, a: u32, b: u32, c: u32)
    requires { i ≤ 4611686018427387904 }
    ensures { work.new ≡ S.three work.old i a b c }
{
    put(work, i, a);
    put(work, i + 1, b);
    put(work, i + 2, c);
}

// Zeros in n words from word i on.
fn clear(work: &mut [u32], i: usize, n: usize)
    requires { (i ≤ 4611686018427387904) × (n ≤ 4611686018427387904) }
    ensures { work.new ≡ S.zeroed work.old i n }
{
    for j in (0..n).rev() {
        put(work, i + j, 0);
    }
}

// The word of what is known of a free bit: the hit does not depend on one that is not marked.
fn first_fact(mark: u32) -> u32
    ensures { result ≡ S.first_fact mark }
{
    if mark == 0 { 8 } else { 0 }
}

// Gives node k, which is no gate, the operands and the fact of its record.
fn set_leaf(work: &mut [u32], k: u32)
    ensures { work.new ≡ S.leaf_set work.old k }
{
    let e = edge_to(k, 0);
    let fact = first_fact(word(work, k, 10));
    put_three(work, 16 * (k as usize), e, e, fact);
}

// The same for the first n nodes.
pub fn set_leaves(work: &mut [u32], n: u32)
    ensures { work.new ≡ S.leaves_set work.old n }
{
    for k in (0..n).rev() {
        set_leaf(work, k);
    }
}

// Renumbers the operands of gate k.
fn set_gate(work: &mut [u32], k: u32)
    ensures { work.new ≡ S.gate_set work.old k }
{
    let a = renumber(work, word(work, k, 0));
    let b = renumber(work, word(work, k, 1));
    put_three(work, 16 * (k as usize), a, b, 0);
}

// The same for the gates from node `first` up to node n.
fn set_gates(work: &mut [u32], first: u32, n: u32)
    ensures { work.new ≡ S.gates_set work.old first (n - first) }
{
    for k in (first..n).rev() {
        set_gate(work, k);
    }
}

// Moves the record of node k of the graph to node v.
fn move_to(work: &mut [u32], k: u32, v: u32)
    ensures { work.new ≡ S.moved_to work.old k v }
{
    let a = word(work, k, 0);
    let b = word(work, k, 1);
    let c = word(work, k, 2);
    let at = place(v, 0);
    clear(work, at, 14);
    put_three(work, at, a, b, c);
}

// Moves the record of node k to the node of its number, if it has one.
fn move_node(work: &mut [u32], k: u32)
    ensures { work.new ≡ S.moved work.old k }
{
    let v = word(work, k, 10);
    if v == 0 {
        return;
    }
    move_to(work, k, v);
}

// Moves the records of nodes 1 up to n.
fn move_nodes(work: &mut [u32], n: u32)
    ensures { work.new ≡ S.all_moved work.old 1 (n - 1) }
{
    for k in 1..n {
        move_node(work, k);
    }
}

// Puts gate g, by its operand 0 or 1, in front of the fan-outs of that operand's node.
fn link(work: &mut [u32], nodes: u32, g: u32, side: u8)
    requires { side ≤ 1 }
    ensures { work.new ≡ S.linked work.old nodes g side }
{
    let v = field(work, nodes, g, side) / 2;
    let fact = field(work, nodes, v, FACT);
    set_field(work, nodes, g, FAN + side, fact / 16);
    let fan = edge_to(g, side as u32) % 268435456;
    set_field(work, nodes, v, FACT, fact % 16 + 16 * fan);
}

// The fan-outs of the gates from node `first` on, the last gate first.
fn link_gates(work: &mut [u32], nodes: u32, first: u32)
    ensures { work.new ≡ S.all_linked work.old nodes first (nodes - first) }
{
    for g in (first..nodes).rev() {
        link(work, nodes, g, 1);
        link(work, nodes, g, 0);
    }
}

// Makes the records of a netlist of so many nodes from those of a graph of n nodes, whose gates stand from node `first` on and have their
// numbers. All other words are 0 then.
pub fn arrange(work: &mut [u32], first: u32, n: u32, nodes: u32)
    requires { 14 * nodes ≤ length work.old }
    ensures { work.new ≡ S.arranged work.old first n nodes }
{
    set_gates(work, first, n);
    move_to(work, 0, 0);
    move_nodes(work, n);
    let used = place(nodes, 0);
    clear(work, used, work.len() - used);
    link_gates(work, nodes, first);
}
