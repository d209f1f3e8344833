// The frames of an attempt by sets of states: one set after the other, and from frame `first` on the start states of each.
#![tactic(auto)]

ghost use Rattle.std.specs.Prelude.{◌≡◌, suc, ◌+◌, ◌≤◌, ◌<◌, length};
ghost use Rattle.state_sets.specs.Shape.{Fits};
ghost use Rattle.state_sets.specs.Sets as Z;
ghost use Rattle.set_attempt.specs.Attempt as T;
ghost use Rattle.set_frames.specs.Frames as F;

use set_walk::Start;
use state_sets::Shape;

// The first frame with a hit; no frame at all has one, as is known at a frame; no frame up to the last has one; or the frame at which the
// diagram is full.
#[derive(Clone, Copy)]
pub enum Reached {
    Hit(usize),
    Never(usize),
    Clear,
    GaveUp(usize),
}

// The first frame whose start states are sought, and the last frame.
#[derive(Clone, Copy)]
pub struct Span {
    pub first: usize,
    pub k: usize,
}

// The first frame whose start states are sought, and the frame that is next.
#[derive(Clone, Copy)]
struct Turn {
    first: usize,
    t: usize,
}

// The least start state of set t.
fn start(
    w: &mut [u32],
    table: &[u32],
    s: Shape,
    t: usize,
    frees: &[u32],
    base: &[u32],
    bits: &mut [u32],
) -> Start
    requires stands { F.Stands s frees.now base.now (suc t) (Z.sets_of w.old table.now) }
    requires fits { Fits s (length table.now) }
    requires bits_len { (length bits.old ≡ length base.now) × (t < 256) }
    ensures { F.seen (Z.sets_of w.new table.now) result bits.new
        ≡ T.start_seen (F.setup_in s frees.now base.now) t (Z.sets_of w.old table.now) }
{
    bits.copy_from_slice(base);
    set_walk::least_start(w, table, s, t, frees, bits)
}

// The same, and once more after a collection where the diagram is full.
fn start_again(
    w: &mut [u32],
    table: &mut [u32],
    s: Shape,
    t: usize,
    frees: &[u32],
    base: &[u32],
    bits: &mut [u32],
) -> Start
    requires stands { F.Stands s frees.now base.now (suc t) (Z.sets_of w.old table.old) }
    requires fits { Fits s (length table.old) }
    requires bits_len { (length bits.old ≡ length base.now) × (t < 256) }
    ensures { F.seen (Z.sets_of w.new table.new) result bits.new
        ≡ T.start_again (F.setup_in s frees.now base.now) t (Z.sets_of w.old table.old) }
{
    match start(w, table, s, t, frees, base, bits) {
        Start::Least => Start::Least,
        Start::Nowhere => Start::Nowhere,
        Start::Full => match collection::collect(w, table) {
            Err(_) => Start::Full,
            Ok(_) => start(w, table, s, t, frees, base, bits),
        },
    }
}

// Frame t, where the sets before t stand; clear where it has no hit.
fn frame(
    w: &mut [u32],
    table: &mut [u32],
    s: Shape,
    turn: Turn,
    frees: &[u32],
    base: &[u32],
    bits: &mut [u32],
) -> Reached
    requires stands { F.Stands s frees.now base.now turn.t (Z.sets_of w.old table.old) }
    requires fits { Fits s (length table.old) }
    requires bits_len { (length bits.old ≡ length base.now) × (turn.t < 256) }
    ensures { F.ran (Z.sets_of w.new table.new) bits.new result
        ≡ F.frame_run (F.setup_in s frees.now base.now) turn.first turn.t bits.old
        (Z.sets_of w.old table.old) }
{
    let t = turn.t;
    if !state_sets::advance(w, table, s, t) {
        return Reached::GaveUp(t);
    }
    if table[t] == 0 {
        return Reached::Never(t);
    }
    if t < turn.first {
        return Reached::Clear;
    }
    match start_again(w, table, s, t, frees, base, bits) {
        Start::Least => Reached::Hit(t),
        Start::Nowhere => Reached::Clear,
        Start::Full => Reached::GaveUp(t),
    }
}

// The frames up to the last, from a table that is ready for set 0. After a hit at frame t the sets up to t stand in the table, and bits are
// the least start state from which frame t has one.
pub fn run_frames(
    w: &mut [u32],
    table: &mut [u32],
    s: Shape,
    span: Span,
    frees: &[u32],
    base: &[u32],
    bits: &mut [u32],
) -> Reached
    requires begun { F.Begun s frees.now base.now (Z.sets_of w.old table.old) }
    requires fits { Fits s (length table.old) }
    requires base_len { (length base.now ≡ s.vars) × (length bits.old ≡ s.vars) × (span.k ≤ 255) }
    ensures { F.FramesAre s frees.now base.now span.first (span.k + 1) (Z.sets_of w.old table.old)
        w.new table.new bits.new result }
{
    let first = span.first;
    let k = span.k;
    let mut t = 0usize;
    while t <= k {
        match frame(w, table, s, Turn { first, t }, frees, base, bits) {
            Reached::Clear => {
                t += 1;
            }
            Reached::Hit(u) => {
                return Reached::Hit(u);
            }
            Reached::Never(u) => {
                return Reached::Never(u);
            }
            Reached::GaveUp(u) => {
                return Reached::GaveUp(u);
            }
        }
    }
    Reached::Clear
}
