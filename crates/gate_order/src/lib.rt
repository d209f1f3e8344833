// The order in which the gates of a circuit get numbers: the next is the first in the list that waits for no operand. Each gate counts
// the operands that it waits for; a number for a variable releases the slots that use it; and of the gates that wait for nothing the
// earliest is found by blocks of 64.
#![tactic(auto)]

ghost use Rattle.std.specs.Prelude.{◌≡◌, ◌+◌, ◌*◌, ◌≤◌, ◌<◌, length};
ghost use Rattle.gate_order.specs.Waiting.{
  Below,
  lacks,
  waits,
  Users,
  Marked,
  Waiting,
  Put,
  FirstIn,
  BlockSeen,
  Gates,
  Stale,
  Apart,
  Numbered,
};
ghost use Rattle.gate_order.specs.Waiting.{Zeros, FoundReady};

// 1 where variable v has no number, else 0.
fn lacks_number(table: &[u32], v: u32) -> u32
    requires { v < length table.now }
    ensures { result ≡ lacks table.now v }
{
    if v == 0 {
        return 0;
    }
    if table[v as usize] == 0 {
        return 1;
    }
    0
}

// How many operands of gate i have no number, or 3 where the gate has one itself.
fn count_waits(vars: &[u32], ops: &[u32], table: &[u32], i: usize) -> u32
    requires { Gates vars.now ops.now table.now × (i < length vars.now) }
    ensures { result ≡ waits vars.now ops.now table.now i }
{
    let own = vars[i] as usize;
    if table[own] == 0 {
        return lacks_number(table, ops[2 * i]) + lacks_number(table, ops[2 * i + 1]);
    }
    3
}

// Stores the count w of gate i, and marks its block where that is 0.
fn put_count(waiting: &mut [u32], marks: &mut [u32], i: usize, w: u32)
    requires { (i < length waiting.old) × (i < 64 * length marks.old) }
    ensures { Put waiting.old marks.old i w waiting.new marks.new }
{
    waiting[i] = w;
    if w == 0 {
        marks[i / 64] = 1;
        return;
    }
}

// Counts for every gate the operands without a number.
fn start_waiting(vars: &[u32], ops: &[u32], table: &[u32], waiting: &mut [u32], marks: &mut [u32])
    requires gates { Gates vars.now ops.now table.now × (length waiting.old ≡ length vars.now) }
    requires vars_len_bound { length vars.now ≤ 64 * length marks.old }
    ensures { Waiting vars.now ops.now table.now waiting.new marks.new }
{
    for i in 0..vars.len() {
        refresh(vars, ops, table, i, waiting, marks);
    }
}

// Links the slots that use a variable, for every variable. All words of links are 0 before.
fn link_users(ops: &[u32], links: &mut [u32])
    requires below { Below ops.now 4097 × (4097 + length ops.now ≤ length links.old) × Zeros links.old }
    requires ops_len_bound { length ops.now ≤ 6144 }
    ensures { Users ops.now (length ops.now) links.new }
{
    for s in 0..ops.len() {
        let v = ops[s] as usize;
        links[4097 + s] = links[v];
        links[v] = s as u32 + 1;
    }
}

// The first gate from `from` on and below `to` that waits for nothing, or `to`.
fn first_in(waiting: &[u32], from: usize, to: usize) -> usize
    requires { (from ≤ to) × (to ≤ length waiting.now) }
    ensures { FirstIn waiting.now from to result }
{
    for i in from..to {
        if waiting[i] == 0 {
            return i;
        }
    }
    to
}

fn least(a: usize, b: usize) -> usize
    ensures { (result ≤ a) × (result ≤ b) × ((a ≤ b → result ≡ a) × (b ≤ a → result ≡ b)) }
{
    if a < b {
        return a;
    }
    b
}

// The first gate of block b that waits for nothing, or the number of gates. The mark of a block without such a gate is cleared.
fn look_in_block(waiting: &[u32], marks: &mut [u32], b: usize) -> usize
    requires b_in_bounds { (64 * b < length waiting.now) × (b < length marks.old) × Marked waiting.now marks.old }
    requires waiting_len_bound { length waiting.now ≤ 3072 }
    ensures { BlockSeen waiting.now marks.old b result marks.new }
{
    let n = waiting.len();
    if marks[b] == 0 {
        return n;
    }
    let end = least(64 * b + 64, n);
    let i = first_in(waiting, 64 * b, end);
    if i < end {
        return i;
    }
    marks[b] = 0;
    n
}

// The first gate that waits for nothing, or the number of gates. Marks of blocks without such a gate are cleared.
fn first_ready(waiting: &[u32], marks: &mut [u32]) -> usize
    requires { (length waiting.now ≤ 64 * length marks.old) × (length waiting.now ≤ 3072) × Marked waiting.now marks.old }
    ensures { FoundReady waiting.now result × Marked waiting.now marks.new }
{
    let n = waiting.len();
    let mut b: usize = 0;
    while 64 * b < n {
        let i = look_in_block(waiting, marks, b);
        if i < n {
            return i;
        }
        b += 1;
    }
    n
}

// Counts anew what gate g waits for.
fn refresh(
    vars: &[u32],
    ops: &[u32],
    table: &[u32],
    g: usize,
    waiting: &mut [u32],
    marks: &mut [u32],
)
    requires gates { Gates vars.now ops.now table.now × (length waiting.old ≡ length vars.now) }
    requires g_in_bounds { (g < length vars.now) × (length vars.now ≤ 64 * length marks.old) }
    ensures { Put waiting.old marks.old g (waits vars.now ops.now table.now g)
        waiting.new marks.new }
{
    let w = count_waits(vars, ops, table, g);
    put_count(waiting, marks, g, w);
}

// Counts anew what the gates wait for that use variable v, which has got a number.
fn refresh_users(
    vars: &[u32],
    ops: &[u32],
    table: &[u32],
    v: usize,
    links: &[u32],
    waiting: &mut [u32],
    marks: &mut [u32],
)
    requires gates { Gates vars.now ops.now table.now × Users ops.now (length ops.now) links.now }
    requires v_bound { (v < 4097) × (4097 + length ops.now ≤ length links.now)
        × Stale vars.now ops.now table.now v (length ops.now) waiting.old marks.old }
    ensures { Waiting vars.now ops.now table.now waiting.new marks.new }
{
    // A while: it follows the links from slot to slot.
    let mut cur = links[v];
    while 0 < cur {
        let s = cur as usize - 1;
        refresh(vars, ops, table, s / 2, waiting, marks);
        cur = links[4097 + s];
    }
}

// Gives the gates numbers from k on, each time to the first that waits for nothing, and lists them in order. The answer is how many got
// one. Working words: links of the slots, and what each gate waits for.
fn take_gates(
    vars: &[u32],
    ops: &[u32],
    k: u32,
    table: &mut [u32],
    order: &mut [u32],
    links: &[u32],
    waiting: &mut [u32],
) -> usize
    requires gates { Gates vars.now ops.now table.old × Users ops.now (length ops.now) links.now × Apart vars.now }
    requires table_len_bound { (length table.old ≤ 4097) × (4097 + length ops.now ≤ length links.now) × (length vars.now ≤ length order.old) }
    requires vars_bound { (k + length vars.now ≤ 10000) × (0 < k) × (length waiting.old ≡ length vars.now) }
    ensures { Numbered vars.now ops.now k table.old order.old result table.new
        order.new }
{
    let mut marks = [0u32; 48];
    start_waiting(vars, ops, table, waiting, &mut marks);
    let mut n: usize = 0;
    let mut next = k;
    while n < vars.len() {
        let i = first_ready(waiting, &mut marks);
        if vars.len() <= i {
            return n;
        }
        let v = vars[i] as usize;
        order[n] = i as u32;
        table[v] = next;
        refresh(vars, ops, table, i, waiting, &mut marks);
        refresh_users(vars, ops, table, v, links, waiting, &mut marks);
        n += 1;
        next += 1;
    }
    n
}

// Gives the gates of a circuit their numbers from k on: vars has their variables, ops those of their operands, and table the numbers that
// variables have, 0 for none. Lists those that get a number in order, and answers how many they are. Working words are lent: links, which
// are 0, and waiting, whatever it holds.
pub fn number_gates(
    vars: &[u32],
    ops: &[u32],
    k: u32,
    table: &mut [u32],
    order: &mut [u32],
    links: &mut [u32],
    waiting: &mut [u32],
) -> usize
    requires gates { Gates vars.now ops.now table.old × Apart vars.now × (length table.old ≤ 4097) }
    requires vars_in_bounds { (length vars.now ≤ length order.old) × (k + length vars.now ≤ 10000) × (0 < k) }
    requires ops_in_bounds { (4097 + length ops.now ≤ length links.old) × Zeros links.old }
    requires waiting_len { length waiting.old ≡ length vars.now }
    ensures { Numbered vars.now ops.now k table.old order.old result table.new
        order.new }
{
    link_users(ops, links);
    take_gates(vars, ops, k, table, order, links, waiting)
}
