// The bytes of a bench: numbers and searches read and stored, and whose turn it is. Bytes are read and stored with a test of the index.
#![tactic(auto)]

ghost use Rattle.std.specs.Prelude.{◌≡◌, ◌&&◌, ℕ, ◌+◌, ◌%◌, ◌<◌, ◌≤◌, min, leb, ltb, get_or, set};
ghost use Rattle.std.proofs.Math.Option.{Option};
ghost use Rattle.place_search.specs.Places.{Placed};
ghost use Rattle.benches.specs.Bench as Bench;
ghost use Rattle.bench_bytes.specs.Bytes as Bytes;
ghost use Rattle.bench_bytes.specs.Calls as Calls;
ghost use Rattle.bench_record.specs.Steps.{Below, turn_is, first_in, placed_of};

use benches::Entry;

// What a turn's search of a frame came to: a hit, no hit, or a budget spent at the place that it reached.
#[derive(Clone, Copy)]
pub enum Outcome {
    Hit,
    Clear,
    Spent(u64),
}

// Byte i, or 0 past the end. `memory::get` is the same over words; this one stands apart, as its contract tells the bound of a byte too.
fn byte(bytes: &[u8], i: usize) -> u64
    ensures { Below (get_or bytes.now i 0) 256 result }
{
    if i < bytes.len() {
        u64::from(bytes[i])
    } else {
        0
    }
}

// Four bytes from p on, the lowest first.
fn half_at(bytes: &[u8], p: usize) -> u64
    requires { p ≤ 4096 }
    ensures { Below (Bytes.half_at bytes.now p) 4294967296 result }
{
    byte(bytes, p)
        + 256 * byte(bytes, p + 1)
        + 65536 * byte(bytes, p + 2)
        + 16777216 * byte(bytes, p + 3)
}

// Eight bytes from p on.
pub fn number_at(bytes: &[u8], p: usize) -> u64
    requires { p ≤ 4000 }
    ensures { result ≡ Bytes.number_at bytes.now p }
{
    half_at(bytes, p) + 4294967296 * half_at(bytes, p + 4)
}

// Whether the numbers may stand for a search.
fn is_entry(e: Entry) -> bool
    ensures { result ≡ Bytes.is_entry e }
{
    (1 <= e.stage) & (e.stage <= 3) & (e.k <= 255) & (e.frame <= e.k) & (e.budget <= 4294967296)
}

// The search that the numbers stand for.
fn meant(e: Entry) -> Entry
    ensures { result ≡ Bytes.meant e }
{
    if is_entry(e) { e } else { Entry::default() }
}

// The search whose bytes begin at p.
pub fn entry_at(bytes: &[u8], p: usize) -> Entry
    requires { p ≤ 3900 }
    ensures { result ≡ Bytes.entry_at bytes.now p }
{
    let stage = number_at(bytes, p);
    let b = number_at(bytes, p + 8);
    let k = number_at(bytes, p + 16);
    let budget = number_at(bytes, p + 24);
    let frame = number_at(bytes, p + 32);
    let place = number_at(bytes, p + 40);
    meant(Entry {
        stage,
        b,
        k,
        budget,
        frame,
        place,
    })
}

// Stores x at i, unless that is past the end. `memory::put` is the same over words; a generic function for both is no plainer than the test.
fn put(bytes: &mut [u8], i: usize, x: u8)
    ensures { bytes.new ≡ set bytes.old i x }
{
    if i < bytes.len() {
        bytes[i] = x;
    }
}

// Digit x of a number in base 256, as a byte.
fn digit(x: u64) -> u8
    ensures { result ≡ x % 256 }
{
    (x % 256) as u8
}

// Stores four bytes from p on.
fn put_half(bytes: &mut [u8], p: usize, x: u64)
    requires { p ≤ 4096 }
    ensures { bytes.new ≡ Bytes.put_half bytes.old p x }
{
    put(bytes, p, digit(x));
    put(bytes, p + 1, digit(x / 256));
    put(bytes, p + 2, digit(x / 65536));
    put(bytes, p + 3, digit(x / 16777216));
}

// Stores eight bytes from p on.
pub fn put_number(bytes: &mut [u8], p: usize, x: u64)
    requires { p ≤ 4000 }
    ensures { bytes.new ≡ Bytes.put_number bytes.old p x }
{
    put_half(bytes, p, x % 4294967296);
    put_half(bytes, p + 4, x / 4294967296);
}

// Stores a search from p on.
pub fn put_entry(bytes: &mut [u8], p: usize, e: Entry)
    requires { p ≤ 3900 }
    ensures { bytes.new ≡ Bytes.put_entry bytes.old p e }
{
    put_number(bytes, p, e.stage);
    put_number(bytes, p + 8, e.b);
    put_number(bytes, p + 16, e.k);
    put_number(bytes, p + 24, e.budget);
    put_number(bytes, p + 32, e.frame);
    put_number(bytes, p + 40, e.place);
}

// ---- the bench of a user

// Whether the bytes of a user's bench are there.
pub fn is_there(shared: &[u8], user: usize) -> bool
    requires { user ≤ 1 }
    ensures { result ≡ Bytes.is_there shared.now user }
{
    512 + 1024 * user + 1024 <= shared.len()
}

// Where the bytes of search n begin.
fn entry_place(user: usize, n: usize) -> usize
    requires { (user ≤ 1) × (n < 16) }
    ensures { (result ≡ Bytes.entry_place user n) × (result ≤ 2304) }
{
    512 + 1024 * user + 48 * n
}

// Search n of a bench that is there.
pub fn entry_of(shared: &[u8], user: usize, n: usize) -> Entry
    requires { (user ≤ 1) × (n < 16) }
    ensures { result ≡ Bytes.entry_at shared.now (Bytes.entry_place user n) }
{
    let p = entry_place(user, n);
    entry_at(shared, p)
}

// The allowance of a bench that is there.
pub fn allowance_of(shared: &[u8], user: usize) -> u64
    requires { user ≤ 1 }
    ensures { result ≡ Bytes.number_at shared.now (Bytes.allowance_place user) }
{
    number_at(shared, 512 + 1024 * user + 768)
}

// Whether a search may be queued under a number.
pub fn is_free(shared: &[u8], user: usize, n: u64) -> bool
    requires { user ≤ 1 }
    ensures { result ≡ Bench.is_free (Bytes.bench_of shared.now user) n }
{
    if 15 < n {
        return false;
    }
    if !is_there(shared, user) {
        return true;
    }
    let e = entry_of(shared, user, n as usize);
    e.stage == 0
}

// ---- turns

// Whether a search waits for a turn.
fn is_waiting(e: Entry) -> bool
    ensures { result ≡ Bench.is_waiting e }
{
    (e.stage == 1) & (1 <= e.budget)
}

// Whether search n waits.
fn waits(shared: &[u8], user: usize, n: usize) -> bool
    requires { (user ≤ 1) × (n < 16) }
    ensures { result ≡ Bench.is_waiting (Bytes.entry_at shared.now (Bytes.entry_place user n)) }
{
    is_waiting(entry_of(shared, user, n))
}

// The first number from next on, in cyclic order, whose search waits.
fn first_waiting(shared: &[u8], user: usize, next: usize) -> Option<usize>
    requires { (user ≤ 1) × (next < 16) }
    ensures { turn_is result ≡ first_in shared.now user next 16 }
{
    for k in 0..16 {
        let n = (next + k) % 16;
        if waits(shared, user, n) {
            return Some(n);
        }
    }
    None
}

// Whose turn it is: that of a number, or nobody's.
pub fn turn_of(shared: &[u8], user: usize) -> Option<usize>
    requires { user ≤ 1 }
    ensures { turn_is result ≡ Bench.turn_of (Bytes.bench_of shared.now user) }
{
    if !is_there(shared, user) {
        return None;
    }
    if allowance_of(shared, user) == 0 {
        return None;
    }
    let next = number_at(shared, 512 + 1024 * user + 776) % 16;
    first_waiting(shared, user, next as usize)
}

// The smallest of 1,024, a budget and an allowance.
pub fn grant_of(budget: u64, allowance: u64) -> u64
    ensures { result ≡ min 1024 (min budget allowance) }
{
    budget.min(allowance).min(1024)
}

// A search after a hit.
pub fn after_hit(e: Entry, grant: u64) -> Entry
    requires { grant ≤ e.budget }
    ensures { (x : ℕ) → result ≡ Bench.entry_after e grant (Placed.hit x) }
{
    Entry {
        stage: 2,
        budget: e.budget - grant,
        ..e
    }
}

// A search after a frame that was done without a hit.
pub fn after_clear(e: Entry, grant: u64) -> Entry
    requires { grant ≤ e.budget }
    ensures { result ≡ Bench.entry_after e grant Placed.clear }
{
    if e.frame < e.k {
        return Entry {
            stage: 1,
            budget: e.budget - grant,
            frame: e.frame + 1,
            place: 0,
            ..e
        };
    }
    Entry {
        stage: 3,
        budget: e.budget - grant,
        ..e
    }
}

// A search after a frame that was spent.
pub fn after_spent(e: Entry, grant: u64, reached: u64) -> Entry
    requires { grant ≤ e.budget }
    ensures { result ≡ Bench.entry_after e grant (Placed.spent reached) }
{
    Entry {
        stage: 1,
        budget: e.budget - grant,
        place: reached,
        ..e
    }
}

// A search after a turn.
fn after_turn(e: Entry, grant: u64, outcome: Outcome) -> Entry
    requires { grant ≤ e.budget }
    ensures { (x : ℕ) → result ≡ Bench.entry_after e grant (placed_of outcome x) }
{
    match outcome {
        Outcome::Hit => after_hit(e, grant),
        Outcome::Clear => after_clear(e, grant),
        Outcome::Spent(reached) => after_spent(e, grant, reached),
    }
}

// ---- what calls leave

// Stores a search under number n.
pub fn put_queued(shared: &mut [u8], user: usize, n: usize, e: Entry)
    requires { (user ≤ 1) × (n < 16) }
    ensures { shared.new ≡ Bytes.put_queued shared.old user n e }
{
    let p = entry_place(user, n);
    put_entry(shared, p, e);
}

// Stores an allowance.
pub fn put_allowed(shared: &mut [u8], user: usize, amount: u64)
    requires { user ≤ 1 }
    ensures { shared.new ≡ Bytes.put_allowed shared.old user amount }
{
    put_number(shared, 512 + 1024 * user + 768, amount);
}

// Stores what a turn of number n leaves.
pub fn put_turned(shared: &mut [u8], user: usize, n: usize, allowance: u64, e: Entry)
    requires { (user ≤ 1) × (n < 16) }
    ensures { shared.new ≡ Bytes.put_turned shared.old user n allowance e }
{
    put_queued(shared, user, n, e);
    put_allowed(shared, user, allowance);
    put_number(shared, 512 + 1024 * user + 776, ((n + 1) % 16) as u64);
}

// Stores what a turn of number n leaves whose search had this outcome.
pub fn settle(shared: &mut [u8], user: usize, n: usize, outcome: Outcome)
    requires { (user ≤ 1) × (Bench.turn_of (Bytes.bench_of shared.old user) ≡ Option.some n) }
    ensures { (x : ℕ) → shared.new
        ≡ Calls.bytes_after shared.old user (Bytes.bench_of shared.old user) n (placed_of outcome x) }
{
    let e = entry_of(shared, user, n);
    let allowance = allowance_of(shared, user);
    let grant = grant_of(e.budget, allowance);
    put_turned(
        shared,
        user,
        n,
        allowance - grant,
        after_turn(e, grant, outcome),
    );
}

// Whether byte i is one of the user's bench.
fn is_inside(user: usize, i: usize) -> bool
    requires { user ≤ 1 }
    ensures { result ≡ (leb (Bytes.bench_place user) i && ltb i (Bytes.bench_place user + 1024)) }
{
    (512 + 1024 * user <= i) & (i < 512 + 1024 * user + 1024)
}

// What is left of byte i, which is x, when the user's bench has ended.
fn cleared_byte(user: usize, i: usize, x: u8) -> u8
    requires { user ≤ 1 }
    ensures { result ≡ Bytes.cleared_byte user i x }
{
    if is_inside(user, i) { 0 } else { x }
}

// Ends the bench of a user.
pub fn end_bench(shared: &mut [u8], user: usize)
    requires { user ≤ 1 }
    ensures { shared.new ≡ Bytes.put_ended shared.old user }
{
    for (i, x) in shared.iter_mut().enumerate() {
        *x = cleared_byte(user, i, *x);
    }
}
