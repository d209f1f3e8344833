// The operations for programs in C and Rust: numbers and slices only. A slice is a pointer and a length. Arguments have one order: the
// user, what users share, circuit memory, what is asked, working memory, output, answer. Every function returns 0 or the number of its
// refusal; what it tells stands in sixteen places of the answer, which a refusal leaves as it was.
// Clause 10.5: whatever is lent, nothing outside it is touched, and every call returns.
#![tactic(auto)]

ghost use Rattle.std.specs.Prelude.{◌≡◌, not, [], eqb};
ghost use Rattle.aiger.specs.Load.{refused};
ghost use Rattle.load.specs.Answers as Load;
ghost use Rattle.search.specs.Chosen as Search;
ghost use Rattle.fold.specs.Answer as Fold;
ghost use Rattle.write.specs.Answer as Write;
ghost use Rattle.replay.specs.Answer as Replay;
ghost use Rattle.widen.specs.Answer as Widen;
ghost use Rattle.waveform.specs.Answer as Waveform;
ghost use Rattle.generate.specs.Answer as Generate;
ghost use Rattle.calls.specs.Answers as Pin;
ghost use Rattle.call_forms.specs.History.{Call};
ghost use Rattle.interface.specs.Told.{
  version,
  load_told,
  pin_told,
  flag,
  search_told,
  text_told,
  preview_told,
  replay_told,
  Tells,
  lent,
  Called,
};

use calls::PinAnswer;
use fold::{FoldAnswer, Target};
use generate::GenerateAnswer;
use load::{Counts, Judgement, LoadAnswer};
use place_limits::PlaceTerms;
use replay::ReplayAnswer;
use search::{SearchAnswer, Terms};
use waveform::WaveformAnswer;
use widen::WidenAnswer;
use write::WriteAnswer;

// The kinds of answers.
const DONE: u64 = 0;

const FOUND: u64 = 1;

const NONE: u64 = 2;

const SPENT: u64 = 3;

const ALL: u64 = 4;

const NO: u64 = 5;

const MIXED: u64 = 6;

// Tells what a load or a join answered.
fn tell_loaded(said: LoadAnswer, answer: &mut [u64]) -> u64
    ensures { Tells (load_told (Load.answered said)) answer.old result answer.new }
{
    match said {
        LoadAnswer::Refused(n) => n as u64,
        LoadAnswer::Loaded(k) => {
            let words = 8 * (k.m as u64 + 1) + 256;
            answer_places::tell_circuit(words, k, 0, answer);
            0
        }
    }
}

// Tells the number that load would answer, and the words needed; 18 refuses the preview itself.
fn tell_unloaded(n: u32, words: u64, answer: &mut [u64]) -> u64
    ensures { Tells (preview_told (refused n) words) answer.old result answer.new }
{
    if n == 18 {
        return 18;
    }
    let k = Counts {
        m: 0,
        i: 0,
        l: 0,
        o: 0,
        a: 0,
        b: 0,
        c: 0,
    };
    answer_places::tell_circuit(words, k, n as u64, answer);
    0
}

// Tells what a preview answered.
fn tell_previewed(said: Judgement, answer: &mut [u64]) -> u64
    ensures { Tells (preview_told (Load.answered said.answer) said.needed) answer.old result answer.new }
{
    let loaded = said.answer;
    let words = said.needed as u64;
    match loaded {
        LoadAnswer::Refused(n) => tell_unloaded(n, words, answer),
        LoadAnswer::Loaded(k) => {
            answer_places::tell_circuit(words, k, 0, answer);
            0
        }
    }
}

// Tells that a pin was set.
fn tell_pinned(said: PinAnswer, answer: &mut [u64]) -> u64
    ensures { Tells (pin_told (Pin.pin_said said)) answer.old result answer.new }
{
    match said {
        PinAnswer::Refused(n) => n as u64,
        PinAnswer::Set => {
            answer_places::tell(DONE, 0, 0, 0, answer);
            0
        }
    }
}

// 1 for true, 0 for false.
fn number(b: bool) -> u64
    ensures { result ≡ flag b }
{
    if b {
        return 1;
    }
    0
}

// Tells what a search answered. Clause 3.9: with none, whether no frame at all has a hit. Clause 12.10: with spent, the place that was
// reached.
fn tell_searched(said: SearchAnswer, answer: &mut [u64]) -> u64
    ensures { Tells (search_told (Search.said said)) answer.old result answer.new }
{
    match said {
        SearchAnswer::Refused(n) => n as u64,
        SearchAnswer::Found(t, n) => {
            answer_places::tell(FOUND, t as u64, n as u64, 0, answer);
            0
        }
        SearchAnswer::Nothing(k, never) => {
            answer_places::tell(NONE, k as u64, 0, number(never), answer);
            0
        }
        SearchAnswer::Spent(t, reached) => {
            answer_places::tell_reached(SPENT, t as u64, reached, answer);
            0
        }
    }
}

// Tells the length of a folded circuit.
fn tell_folded(said: FoldAnswer, answer: &mut [u64]) -> u64
    ensures { Tells (text_told (Fold.answered said)) answer.old result answer.new }
{
    match said {
        FoldAnswer::Refused(n) => n as u64,
        FoldAnswer::Length(n) => {
            answer_places::tell(DONE, 0, n as u64, 0, answer);
            0
        }
    }
}

// Tells the length of a written circuit.
fn tell_written(said: WriteAnswer, answer: &mut [u64]) -> u64
    ensures { Tells (text_told (Write.answered said)) answer.old result answer.new }
{
    match said {
        WriteAnswer::Refused(n) => n as u64,
        WriteAnswer::Length(n) => {
            answer_places::tell(DONE, 0, n as u64, 0, answer);
            0
        }
    }
}

// Tells the length of a widened witness.
fn tell_widened(said: WidenAnswer, answer: &mut [u64]) -> u64
    ensures { Tells (text_told (Widen.answered said)) answer.old result answer.new }
{
    match said {
        WidenAnswer::Refused(n) => n as u64,
        WidenAnswer::Length(n) => {
            answer_places::tell(DONE, 0, n as u64, 0, answer);
            0
        }
    }
}

// Tells the length of a value change dump.
fn tell_dumped(said: WaveformAnswer, answer: &mut [u64]) -> u64
    ensures { Tells (text_told (Waveform.answered said)) answer.old result answer.new }
{
    match said {
        WaveformAnswer::Refused(n) => n as u64,
        WaveformAnswer::Length(n) => {
            answer_places::tell(DONE, 0, n as u64, 0, answer);
            0
        }
    }
}

// Tells the length of a generated circuit.
fn tell_generated(said: GenerateAnswer, answer: &mut [u64]) -> u64
    ensures { Tells (text_told (Generate.answered said)) answer.old result answer.new }
{
    match said {
        GenerateAnswer::Refused(n) => n as u64,
        GenerateAnswer::Length(n) => {
            answer_places::tell(DONE, 0, n as u64, 0, answer);
            0
        }
    }
}

// Tells what a replay answered.
fn tell_replayed(said: ReplayAnswer, answer: &mut [u64]) -> u64
    ensures { Tells (replay_told (Replay.answered said)) answer.old result answer.new }
{
    match said {
        ReplayAnswer::Refused(n) => n as u64,
        ReplayAnswer::All => {
            answer_places::tell(ALL, 0, 0, 0, answer);
            0
        }
        ReplayAnswer::No => {
            answer_places::tell(NO, 0, 0, 0, answer);
            0
        }
        ReplayAnswer::Mixed => {
            answer_places::tell(MIXED, 0, 0, 0, answer);
            0
        }
    }
}

// The number of this interface.
pub fn yunverok_version() -> u64
    ensures { result ≡ version }
{
    2
}

// Loads a file, which user 0 alone may do: circuit memory then holds its circuit, and all pins are free.
pub fn yunverok_load(
    user: u64,
    shared: &mut [u8],
    circuit: &mut [u32],
    file: &[u8],
    answer: &mut [u64],
) -> u64
    ensures { Called (lent shared.old circuit.old []) (Call.load user file.now)
        (lent shared.new circuit.new []) [] answer.old result
        answer.new }
{
    tell_loaded(calls::load(user, shared, circuit, file), answer)
}

// Joins the circuits in first and second into circuit memory, which user 0 alone may do; all pins are then free.
pub fn yunverok_join(
    user: u64,
    shared: &mut [u8],
    circuit: &mut [u32],
    first: &[u32],
    second: &[u32],
    answer: &mut [u64],
) -> u64
    ensures { Called (lent shared.old circuit.old []) (Call.join user first.now second.now)
        (lent shared.new circuit.new []) [] answer.old result
        answer.new }
{
    tell_loaded(calls::join(user, shared, circuit, first, second), answer)
}

// Tells what user 0's load of a file would answer for this circuit memory, and how many words the circuit needs.
pub fn yunverok_preview(user: u64, circuit: &[u32], file: &[u8], answer: &mut [u64]) -> u64
    ensures { Called (lent [] circuit.now []) (Call.preview user file.now) (lent [] circuit.now []) []
        answer.old result
        answer.new }
{
    tell_previewed(calls::preview(user, circuit, file), answer)
}

// Sets the user's pin of an input: 0 or 1 holds the input at that value, 2 leaves it free.
pub fn yunverok_pin(
    user: u64,
    shared: &mut [u8],
    circuit: &[u32],
    input: u64,
    value: u64,
    answer: &mut [u64],
) -> u64
    ensures { Called (lent shared.old circuit.now []) (Call.set_pin user input value)
        (lent shared.new circuit.now []) [] answer.old result
        answer.new }
{
    tell_pinned(calls::set_pin(user, shared, circuit, input, value), answer)
}

// Searches frames 0 to k for a hit of bad line b under the user's pins, with a budget of d sequences for each frame.
pub fn yunverok_search(
    user: u64,
    shared: &[u8],
    circuit: &[u32],
    b: u64,
    k: u64,
    d: u64,
    work: &mut [u32],
    out: &mut [u8],
    answer: &mut [u64],
) -> u64
    ensures { Called (lent shared.now circuit.now work.old) (Call.search user b k d out.old)
        (lent shared.now circuit.now work.new)
        out.new
        answer.old result
        answer.new }
{
    tell_searched(
        calls::search(user, shared, circuit, Terms { b, k, d }, work, out),
        answer,
    )
}

// Searches frame t for a hit of bad line b at or after a place, under the user's pins, with a budget of d sequences.
pub fn yunverok_search_from(
    user: u64,
    shared: &[u8],
    circuit: &[u32],
    b: u64,
    t: u64,
    place: u64,
    d: u64,
    work: &mut [u32],
    out: &mut [u8],
    answer: &mut [u64],
) -> u64
    ensures { Called (lent shared.now circuit.now work.old)
        (Call.search_from user b t place d out.old)
        (lent shared.now circuit.now work.new)
        out.new
        answer.old result
        answer.new }
{
    tell_searched(
        calls::search_from(
            user,
            shared,
            circuit,
            PlaceTerms { b, t, place, d },
            work,
            out,
        ),
        answer,
    )
}

// Writes the hit of bad line b at frame t, under the user's pins, as a circuit without latches.
pub fn yunverok_fold(
    user: u64,
    shared: &[u8],
    circuit: &[u32],
    b: u64,
    t: u64,
    work: &mut [u32],
    out: &mut [u8],
    answer: &mut [u64],
) -> u64
    ensures { Called (lent shared.now circuit.now work.old) (Call.fold user b t out.old)
        (lent shared.now circuit.now work.new)
        out.new
        answer.old result
        answer.new }
{
    tell_folded(
        calls::fold(user, shared, circuit, Target { b, t }, work, out),
        answer,
    )
}

// Replays a witness under the user's pins.
pub fn yunverok_replay(
    user: u64,
    shared: &[u8],
    circuit: &[u32],
    text: &[u8],
    answer: &mut [u64],
) -> u64
    ensures { Called (lent shared.now circuit.now []) (Call.replay user text.now)
        (lent shared.now circuit.now []) [] answer.old result
        answer.new }
{
    tell_replayed(calls::replay(user, shared, circuit, text), answer)
}

// Widens a witness under the user's pins.
pub fn yunverok_widen(
    user: u64,
    shared: &[u8],
    circuit: &[u32],
    text: &[u8],
    out: &mut [u8],
    answer: &mut [u64],
) -> u64
    ensures { Called (lent shared.now circuit.now []) (Call.widen user text.now out.old)
        (lent shared.now circuit.now [])
        out.new
        answer.old result
        answer.new }
{
    tell_widened(calls::widen(user, shared, circuit, text, out), answer)
}

// Shows the run of a witness as a value change dump: all wires or, where inputs is not 0, the inputs alone.
pub fn yunverok_waveform(
    user: u64,
    circuit: &[u32],
    text: &[u8],
    inputs: u64,
    out: &mut [u8],
    answer: &mut [u64],
) -> u64
    ensures { Called (lent [] circuit.now [])
        (Call.waveform user (not (eqb inputs 0)) text.now out.old)
        (lent [] circuit.now [])
        out.new
        answer.old result
        answer.new }
{
    tell_dumped(
        calls::waveform(user, circuit, text, inputs != 0, out),
        answer,
    )
}

// Writes the circuit as an AIGER file: form 0 is the ASCII form, form 1 the binary form.
pub fn yunverok_write(
    user: u64,
    circuit: &[u32],
    form: u64,
    out: &mut [u8],
    answer: &mut [u64],
) -> u64
    ensures { Called (lent [] circuit.now []) (Call.write user form out.old) (lent [] circuit.now [])
        out.new
        answer.old result
        answer.new }
{
    tell_written(calls::write(user, circuit, form, out), answer)
}

// Writes the circuit of a seed and counts as an AIGER file in ASCII. It needs no memory but the output, so it takes no user: the call is
// that of user 0, and either user gets the same.
pub fn yunverok_generate(
    seed: u64,
    inputs: u64,
    latches: u64,
    gates: u64,
    out: &mut [u8],
    answer: &mut [u64],
) -> u64
    ensures { Called (lent [] [] []) (Call.generate 0 seed inputs latches gates out.old) (lent [] [] [])
        out.new
        answer.old result
        answer.new }
{
    tell_generated(
        calls::generate(0, seed, inputs, latches, gates, out),
        answer,
    )
}
