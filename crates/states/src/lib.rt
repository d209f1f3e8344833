// The states that were met, in working memory: a record for each, in the order of meeting, of four words and those of the state. Word 0 of
// record h is one more than the last record of bucket h, or 0; word 1 of a record is one more than the record before it in its bucket, or
// 0; word 2 is the record that the state was met from, word 3 the row, and from word 4 on stands the state, 32 latches a word.
#![tactic(auto)]

ghost use Rattle.std.specs.Prelude.{◌≡◌, List, ℕ, ◌+◌, ◌*◌, ◌/◌, ◌%◌, ◌≤◌, ◌<◌, eqb, length, get_or};
ghost use Rattle.machine.specs.Layers.{Entry, met};
ghost use Rattle.states.specs.Number.{number_at, hashed, bucket_of};
ghost use Rattle.states.specs.Table.{
  States,
  Linked,
  Buckets,
  Stored,
  Kept,
  Copied,
  Put,
  linked_in,
  Cleared,
  Filled,
  Fits,
  Meets,
  count_of,
  TallyFits,
};

// The form of a table: how many words a state has, and how many buckets there are.
#[derive(Clone, Copy)]
pub struct Table {
    pub width: usize,
    pub buckets: usize,
}

// The hash of a word and those after it, from the hash of those after it.
fn mix(word: u32, h: u32) -> u32
    ensures { result ≡ (word + h) % 4294967296 * 2654435761 % 4294967296 }
{
    ((word as u64 + h as u64) % 4294967296 * 2654435761 % 4294967296) as u32
}

// The hash of a state.
fn hash(s: &[u32]) -> u32
    ensures { result ≡ hashed (length s.now) (number_at s.now 0 (length s.now)) }
{
    let mut h: u32 = 0;
    for i in (0..s.len()).rev() {
        h = mix(s[i], h);
    }
    h
}

// The bucket of a state.
fn bucket(s: &[u32], buckets: usize) -> usize
    requires { buckets < 4294967296 }
    ensures { result ≡ bucket_of (length s.now) buckets (number_at s.now 0 (length s.now)) }
{
    ((hash(s) as u64) * (buckets as u64) / 4294967296) as usize
}

// Whether state s stands at a position.
fn same(records: &[u32], at: usize, s: &[u32]) -> bool
    requires { at + length s.now ≤ length records.now }
    ensures { result ≡ eqb (number_at records.now at (length s.now)) (number_at s.now 0 (length s.now)) }
{
    for (i, w) in s.iter().enumerate() {
        if records[at + i] != *w {
            return false;
        }
    }
    true
}

// Whether state s, of bucket h, was met.
fn known(records: &[u32], table: Table, h: usize, s: &[u32]) -> bool
    requires stored { (es : List Entry) × Stored table records.now es }
    requires s_len { (length s.now ≡ table.width) × (h ≡ bucket_of table.width table.buckets (number_at s.now 0 (length s.now))) }
    ensures { (es : List Entry) → Stored table records.now es → result ≡ met (number_at s.now 0 (length s.now)) es }
{
    let stride = table.width + 4;
    let mut next = records[stride * h] as usize;
    // A while: the chain says itself where it ends.
    while 0 < next {
        let at = stride * (next - 1);
        if same(records, at + 4, s) {
            return true;
        }
        next = records[at + 1] as usize;
    }
    false
}

// Writes a state at a position.
fn copy(records: &mut [u32], at: usize, s: &[u32])
    requires { at + length s.now ≤ length records.old }
    ensures { Copied records.old at s.now records.new }
{
    for (i, w) in s.iter().enumerate() {
        records[at + i] = *w;
    }
}

// Writes record n, but for its bucket.
fn put(records: &mut [u32], n: usize, s: &[u32], parent: u32, row: u32)
    requires { (length s.now + 4) * n + (length s.now + 4) ≤ length records.old }
    ensures { Put (length s.now) records.old n (number_at s.now 0 (length s.now)) parent row
        records.new }
{
    let at = (s.len() + 4) * n;
    records[at + 2] = parent;
    records[at + 3] = row;
    copy(records, at + 4, s);
}

// Puts record n in front of bucket h.
fn link(records: &mut [u32], width: usize, n: usize, h: usize)
    requires { ((width + 4) * n + (width + 4) ≤ length records.old) × ((width + 4) * h < length records.old) × (n < 4294967295) }
    ensures { records.new ≡ linked_in width records.old n h }
{
    let stride = width + 4;
    let at = stride * n;
    let head = stride * h;
    records[at + 1] = records[head];
    records[head] = (n + 1) as u32;
}

// Meets state s, which row `row` of record `parent` leads to, where there may be quota records. A tally is how many states were met, which
// is the number of records; None where there are more than there may be.
pub fn meet(
    records: &mut [u32],
    table: Table,
    tally: Option<usize>,
    quota: usize,
    s: &[u32],
    parent: u32,
    row: u32,
) -> Option<usize>
    requires { Fits table quota (count_of quota tally) records.old × TallyFits quota tally × (length s.now ≡ table.width) }
    ensures { Meets table quota (count_of quota tally) (number_at s.now 0 (length s.now)) parent row records.old
        (count_of quota result) records.new
        × TallyFits quota result }
{
    let count = tally?;
    let h = bucket(s, table.buckets);
    if known(records, table, h, s) {
        return Some(count);
    }
    if count == quota {
        return None;
    }
    put(records, count, s, parent, row);
    link(records, table.width, count, h);
    Some(count + 1)
}

// Empties all buckets.
fn clear(records: &mut [u32], table: Table)
    requires { Buckets table records.old }
    ensures { Cleared table records.old records.new }
{
    let stride = table.width + 4;
    for h in 0..table.buckets {
        records[stride * h] = 0;
    }
}

// The bucket of record n.
fn bucket_at(records: &[u32], table: Table, n: usize) -> usize
    requires { (table.buckets < 4294967296) × ((table.width + 4) * n + (table.width + 4) ≤ length records.now) }
    ensures { result ≡ bucket_of table.width table.buckets (number_at records.now ((table.width + 4) * n + 4) table.width) }
{
    let from = (table.width + 4) * n + 4;
    let end = from + table.width;
    bucket(&records[from..end], table.buckets)
}

// Puts the first `count` records in their buckets, which are empty.
fn link_all(records: &mut [u32], table: Table, count: usize)
    requires buckets { Buckets table records.old }
    requires count_in_bounds { ((table.width + 4) * count ≤ length records.old) × (count < 4294967295) }
    ensures { Kept table.width count records.old records.new
        × ((es : List Entry) → length es ≡ count → States table.width records.old es
        → Linked table records.old es 0
        → Stored table records.new es) }
{
    let width = table.width;
    for n in 0..count {
        let h = bucket_at(records, table, n);
        link(records, width, n, h);
    }
}

// Puts the first `count` records in their buckets, whatever the buckets held.
pub fn fill(records: &mut [u32], table: Table, count: usize)
    requires buckets { Buckets table records.old }
    requires count_in_bounds { ((table.width + 4) * count ≤ length records.old) × (count < 4294967295) }
    ensures { Filled table count records.old records.new }
{
    clear(records, table);
    link_all(records, table, count);
}
