// Kept clauses and fixed literals: the working clause is kept, or, where it has one literal, that is fixed. Only a working clause of
// which no literal was lost is believed.
#![tactic(auto)]

ghost use Rattle.std.specs.Prelude.{◌≡◌, ◌<◌};
ghost use Rattle.kept.specs.Kept as K;

use memory::{Arena, Draft, FACT, Netlist, UNDEF, WATCH, field, literal, set_field, set_head};

// Notes that literal l is true in every hit.
fn fix(work: &mut [u32], nodes: u32, l: u32)
    ensures { work.new ≡ K.fixed work.old nodes l }
{
    let fact = field(work, nodes, l / 2, FACT);
    set_field(work, nodes, l / 2, FACT, fact - fact % 4 + (1 + l % 2));
}

// Fixes the literal of a working clause that has one.
pub fn settle(work: &mut [u32], net: Netlist, arena: Arena, d: Draft)
    ensures { work.new ≡ K.settled work.old net arena d }
{
    if d.whole {
        if d.length == 1 {
            let l = literal(work, net.nodes, arena.used, 0);
            fix(work, net.nodes, l);
        }
    }
}

// Writes the head of a clause: where its literals begin, their number, and the glue.
fn write_head(work: &mut [u32], words: u32, c: u32, place: u32, length: u32, glue: u32)
    requires { length < 1048576 }
    ensures { work.new ≡ K.with_head work.old words c place length glue }
{
    set_head(work, words, c, 0, place);
    set_head(work, words, c, 1, length + 1048576 * (glue % 64));
}

// Keeps the working clause as the last clause, if it is whole and there is room for its head.
pub fn keep(work: &mut [u32], net: Netlist, arena: Arena, d: Draft, glue: u32) -> Arena
    ensures { K.Left work.new result (K.kept work.old net arena d glue) }
{
    let need = 14 * (net.nodes as usize)
        + (arena.used as usize)
        + 6 * (arena.count as usize)
        + (d.length as usize)
        + 6;
    if (net.words as usize) < need {
        return arena;
    }
    if 1048576 <= d.length {
        return arena;
    }
    if d.whole {
        write_head(work, net.words, arena.count, arena.used, d.length, glue);
        return Arena {
            used: arena.used + d.length,
            count: arena.count + 1,
        };
    }
    arena
}

// Puts clause c at the head of the list of clauses that watch literal x, as its watch s.
pub fn attach(work: &mut [u32], net: Netlist, c: u32, s: u8, x: u32)
    requires { s < 2 }
    ensures { work.new ≡ K.attached work.old net c s x }
{
    let f = WATCH + (x % 2) as u8;
    let next = field(work, net.nodes, x / 2, f);
    set_head(work, net.words, c, 2 + s, next);
    set_head(work, net.words, c, 4 + s, x);
    set_field(work, net.nodes, x / 2, f, c);
}

// No clause watches a literal of the first n nodes.
pub fn detach(work: &mut [u32], net: Netlist, n: u32)
    ensures { work.new ≡ K.detached work.old net n }
{
    for v in (0..n).rev() {
        set_field(work, net.nodes, v, 7, UNDEF);
        set_field(work, net.nodes, v, 8, UNDEF);
    }
}
