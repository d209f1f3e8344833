// Load: an AIGER file, in text or binary form, into circuit memory.
#![tactic(auto)]

ghost use Rattle.std.specs.Prelude.{◌≡◌, true, ◌++◌, ◌+◌, ◌-◌, ◌*◌, ◌≤◌, length, take, drop, replicate};
ghost use Rattle.aiger.specs.File.{counts_fit};
ghost use Rattle.aiger.specs.Load.{needed};
ghost use Rattle.aiger.specs.Memory.{image};
ghost use Rattle.aiger.specs.Operations.{Loaded, front};
ghost use Rattle.layout.specs.Words.{word, circuit_in};
ghost use Rattle.headers.specs.Header.{counts_meant};
ghost use Rattle.layout.specs.Layout.{Counted};
ghost use Rattle.load.specs.declared.LoadAnswer.TheVariants.{Refused};
ghost use Rattle.load.specs.Answers.{answered, numbers};
ghost use Rattle.load.specs.Preview.{Previewed, JudgedAs, Judges};
ghost use Rattle.load.specs.Steps.{narrowed, header_meant, CircuitJudged, load_body};

use sections::Body;

// The numbers that an accepted load returns: the largest variable, and how many inputs, latches, outputs, gates, bad lines and
// constraints there are.
#[derive(Clone, Copy)]
pub struct Counts {
    pub m: u32,
    pub i: u32,
    pub l: u32,
    pub o: u32,
    pub a: u32,
    pub b: u32,
    pub c: u32,
}

// The counts of an accepted file, or the number of a refusal.
#[derive(Clone, Copy)]
pub enum LoadAnswer {
    Loaded(Counts),
    Refused(u32),
}

// A judgement of a file: what load answers, and the words that its circuit needs, 0 where its header gives no counts within the limits.
#[derive(Clone, Copy)]
pub struct Judgement {
    pub answer: LoadAnswer,
    pub needed: usize,
}

// A header's counts as words.
fn narrow(h: headers::Counts) -> Counts
    requires { counts_fit (counts_meant h) ≡ true }
    ensures { result ≡ narrowed h }
{
    Counts {
        m: h.m as u32,
        i: h.i as u32,
        l: h.l as u32,
        o: h.o as u32,
        a: h.a as u32,
        b: h.b as u32,
        c: h.c as u32,
    }
}

// Stores the counts as the first seven words.
fn store_counts(words: &mut [u32], k: Counts)
    requires { 7 ≤ length words.old }
    ensures { words.new ≡ numbers k ++ drop 7 words.old }
{
    words[0] = k.m;
    words[1] = k.i;
    words[2] = k.l;
    words[3] = k.o;
    words[4] = k.a;
    words[5] = k.b;
    words[6] = k.c;
}

// Copies the first n words.
fn copy(words: &[u32], n: usize, m: &mut [u32])
    requires n_in_bounds { n ≤ length words.now }
    requires n_in_bounds_2 { n ≤ length m.old }
    ensures { m.new ≡ take n words.now ++ drop n m.old }
{
    let mut i: usize = 0;
    while i < n {
        m[i] = words[i];
        i += 1;
    }
}

// Stores 0 in the words from position from up to position to.
fn clear(m: &mut [u32], from: usize, to: usize)
    requires from_le_to { from ≤ to }
    requires to_in_bounds { to ≤ length m.old }
    ensures { m.new ≡ take from m.old ++ replicate (to - from) 0 ++ drop to m.old }
{
    let mut i = from;
    while i < to {
        m[i] = 0;
        i += 1;
    }
}

// Stores the circuit that words encode in the needed words of m.
fn store(words: &[u32], m: &mut [u32])
    requires counted { Counted words.now }
    requires words_in_bounds { needed (word words.now 0) ≤ length m.old }
    ensures { m.new ≡ front (image (circuit_in words.now)) m.old }
{
    let p = layout::layout_of(words);
    copy(words, p.end, m);
    clear(m, p.end, 8 * (p.m + 1) + 256);
}

// Whether a cause from 6 to 8 refuses the circuit that words encode, which has the counts k.
fn judge_circuit(k: Counts, words: &[u32], order: &mut [u32]) -> LoadAnswer
    requires counted { Counted words.now }
    requires in_bounds { 3072 ≤ length order.old }
    ensures { CircuitJudged (circuit_in words.now) k result }
{
    match validity::check(words, order) {
        Err(e) => LoadAnswer::Refused(e.number()),
        Ok(()) => LoadAnswer::Loaded(k),
    }
}

// Judges the sections after a header with the counts k, in binary or text form. The content of an accepted circuit is left in words.
fn judge_sections(
    s: &[u8],
    at: usize,
    binary: bool,
    k: Counts,
    words: &mut [u32],
    order: &mut [u32],
) -> LoadAnswer
    requires at_in_bounds { at ≤ length s.now }
    requires k_value { counts_fit (header_meant k) ≡ true }
    requires in_bounds { 12391 ≤ length words.old }
    requires in_bounds_2 { 3072 ≤ length order.old }
    ensures { JudgedAs (load_body binary (header_meant k) (drop at s.now)) words.new result }
{
    store_counts(words, k);
    let p = layout::layout_of(words);
    match sections::read_sections(s, at, binary, p, 2 * k.m + 1, words) {
        Body::Malformed => LoadAnswer::Refused(5),
        Body::Damaged => LoadAnswer::Refused(15),
        Body::Large => LoadAnswer::Refused(6),
        Body::Read => judge_circuit(k, words, order),
    }
}

// A refusal of a file without counts within the limits.
fn refused(n: u32) -> Judgement
    ensures { result ≡ record { answer = Refused n; needed = 0 } }
{
    Judgement {
        answer: LoadAnswer::Refused(n),
        needed: 0,
    }
}

// Judges a file for a circuit memory of `room` words. The content of an accepted circuit is left in words.
fn judge_file(file: &[u8], room: usize, words: &mut [u32], order: &mut [u32]) -> Judgement
    requires in_bounds { 12391 ≤ length words.old }
    requires in_bounds_2 { 3072 ≤ length order.old }
    ensures { Judges room file.now words.new result }
{
    if file.len() < 1 {
        return refused(1);
    }
    if 65536 < file.len() {
        return refused(1);
    }
    let Some(header) = headers::read_header(file) else {
        return refused(2);
    };
    let h = header.counts;
    let binary = headers::is_binary(file);
    if !headers::counts_right(h, binary) {
        return refused(3);
    }
    let needed = 8 * (h.m as usize + 1) + 256;
    if room < needed {
        return Judgement {
            answer: LoadAnswer::Refused(4),
            needed,
        };
    }
    let answer = judge_sections(file, header.next, binary, narrow(h), words, order);
    Judgement { answer, needed }
}

// Judges a file for m, and stores the circuit of an accepted one.
fn load_by(file: &[u8], m: &mut [u32], words: &mut [u32], order: &mut [u32]) -> LoadAnswer
    requires in_bounds { 12391 ≤ length words.old }
    requires in_bounds_2 { 3072 ≤ length order.old }
    ensures { Loaded m.old file.now (answered result) m.new }
{
    let room = m.len();
    let judgement = judge_file(file, room, words, order);
    let answer = judgement.answer;
    match answer {
        LoadAnswer::Refused(n) => LoadAnswer::Refused(n),
        LoadAnswer::Loaded(k) => {
            store(words, m);
            LoadAnswer::Loaded(k)
        }
    }
}

// Loads a file into circuit memory.
pub fn load(file: &[u8], m: &mut [u32]) -> LoadAnswer
    ensures { Loaded m.old file.now (answered result) m.new }
{
    let mut words = [0u32; 12391];
    let mut order = [0u32; 3072];
    load_by(file, m, &mut words, &mut order)
}

// Preview of a load: what load would answer on a circuit memory as long as m, and how many words the circuit needs.
pub fn preview(file: &[u8], m: &[u32]) -> Judgement
    ensures { Previewed (length m.now) file.now result }
{
    let mut words = [0u32; 12391];
    let mut order = [0u32; 3072];
    judge_file(file, m.len(), &mut words, &mut order)
}
