// Each operation for a user. Every contract has one form (`Tested`): the tests that need no circuit, then the operation. What is lent has
// one order: the user, what users share, circuit memory, what is asked, working memory, output. What users share is their pins, 256 bytes
// for each; a byte that is not there counts as a free pin.
#![tactic(auto)]

mod shared_bytes;

ghost use Rattle.std.specs.Prelude.{◌≡◌, leb, length};
ghost use Rattle.load.specs.Answers as Load;
ghost use Rattle.search.specs.Chosen as Search;
ghost use Rattle.place_decision.specs.Reach.{place_chosen};
ghost use Rattle.fold.specs.Chosen as Fold;
ghost use Rattle.fold.specs.Answer as FoldAnswers;
ghost use Rattle.write.specs.Answer as Write;
ghost use Rattle.replay.specs.Answer as Replay;
ghost use Rattle.widen.specs.Answer as Widen;
ghost use Rattle.waveform.specs.Answer as Waveform;
ghost use Rattle.generate.specs.Answer as Generate;
ghost use Rattle.call_forms.specs.Forms.{
  UserLoaded,
  UserJoined,
  PinSet,
  UserSearched,
  UserSearchedFrom,
  UserFolded,
  UserReplayed,
  UserWidened,
  UserWritten,
  UserWaveformed,
  UserPreviewed,
  UserGenerated,
};
ghost use Rattle.calls.specs.Answers.{pin_said};

use fold::{FoldAnswer, Target};
use generate::GenerateAnswer;
use load::{Judgement, LoadAnswer};
use place_limits::PlaceTerms;
use replay::ReplayAnswer;
use search::{SearchAnswer, Terms};
use waveform::WaveformAnswer;
use widen::WidenAnswer;
use write::WriteAnswer;

// The pin is set, or the number of a refusal.
#[derive(Clone, Copy)]
pub enum PinAnswer {
    Set,
    Refused(u32),
}

// Whether a user may call an operation that users up to `last` may call: every call decides number 18 here.
fn may(user: u64, last: u64) -> bool
    ensures { result ≡ leb user last }
{
    user <= last
}

// Loads a file into the shared circuit memory, which user 0 alone may do, and frees all pins of both users.
pub fn load(user: u64, shared: &mut [u8], m: &mut [u32], file: &[u8]) -> LoadAnswer
    ensures { UserLoaded m.old file.now shared.old user (Load.answered result) m.new shared.new }
{
    if !may(user, 0) {
        return LoadAnswer::Refused(18);
    }
    let answer = load::load(file, m);
    shared_bytes::free_where_accepted(shared, answer);
    answer
}

// Joins the circuits in first and second into the shared circuit memory, which user 0 alone may do, and frees all pins of both users.
pub fn join(
    user: u64,
    shared: &mut [u8],
    m: &mut [u32],
    first: &[u32],
    second: &[u32],
) -> LoadAnswer
    ensures { UserJoined first.now second.now m.old shared.old user (Load.answered result)
        m.new shared.new }
{
    if !may(user, 0) {
        return LoadAnswer::Refused(18);
    }
    let answer = join::join(first, second, m);
    shared_bytes::free_where_accepted(shared, answer);
    answer
}

// What user 0's load of the file would answer on a circuit memory as long as m, and how many words the circuit needs.
pub fn preview(user: u64, m: &[u32], file: &[u8]) -> Judgement
    ensures { UserPreviewed (length m.now) file.now user (Load.answered result.answer) result.needed }
{
    if !may(user, 1) {
        return Judgement {
            answer: LoadAnswer::Refused(18),
            needed: 0,
        };
    }
    load::preview(file, m)
}

// Sets the pin of an input: 0 or 1 holds the input at that value, 2 leaves it free.
pub fn set_pin(user: u64, shared: &mut [u8], m: &[u32], input: u64, value: u64) -> PinAnswer
    ensures { PinSet m.now user input value shared.old (pin_said result) shared.new }
{
    if !may(user, 1) {
        return PinAnswer::Refused(18);
    }
    if 2 < value {
        return PinAnswer::Refused(18);
    }
    let Some(layout) = circuit::test(m) else {
        return PinAnswer::Refused(9);
    };
    if layout.i as u64 <= input {
        return PinAnswer::Refused(18);
    }
    let at = 256 * user as usize + input as usize;
    if shared.len() <= at {
        return PinAnswer::Refused(18);
    }
    shared[at] = value as u8;
    PinAnswer::Set
}

// Whether the bad line can be reached within the bound by a sequence that obeys the user's pins.
pub fn search(
    user: u64,
    shared: &[u8],
    m: &[u32],
    q: Terms,
    work: &mut [u32],
    out: &mut [u8],
) -> SearchAnswer
    ensures { UserSearched Search.chosen m.now shared.now user q.b q.k q.d work.old
        out.old (Search.said result)
        work.new
        out.new }
{
    if !may(user, 1) {
        return SearchAnswer::Refused(18);
    }
    pinned_search::search(m, shared, user as usize, q, work, out)
}

// Whether the bad line can be reached at a frame by a sequence at or after a place, among those that obey the user's pins.
pub fn search_from(
    user: u64,
    shared: &[u8],
    m: &[u32],
    q: PlaceTerms,
    work: &mut [u32],
    out: &mut [u8],
) -> SearchAnswer
    ensures { UserSearchedFrom place_chosen m.now shared.now user q.b q.t q.place q.d work.old
        out.old (Search.said result)
        work.new
        out.new }
{
    if !may(user, 1) {
        return SearchAnswer::Refused(18);
    }
    pinned_search_from::search_from(m, shared, user as usize, q, work, out)
}

// Writes the hit of a bad line at a frame, under the user's pins, as a circuit without latches.
pub fn fold(
    user: u64,
    shared: &[u8],
    m: &[u32],
    q: Target,
    work: &mut [u32],
    out: &mut [u8],
) -> FoldAnswer
    ensures { UserFolded Fold.chosen m.now shared.now user q.b q.t work.old out.old
        (FoldAnswers.answered result)
        work.new
        out.new }
{
    if !may(user, 1) {
        return FoldAnswer::Refused(18);
    }
    pinned_fold::fold(m, shared, user as usize, q, work, out)
}

// Whether a text is a witness of the circuit in m, and if so which of its completions show a hit under the user's pins: a completion that
// differs from a pin is no hit.
pub fn replay(user: u64, shared: &[u8], m: &[u32], text: &[u8]) -> ReplayAnswer
    ensures { UserReplayed m.now shared.now user text.now (Replay.answered result) }
{
    if !may(user, 1) {
        return ReplayAnswer::Refused(18);
    }
    let own = pinned_runs::own_bytes(shared.len(), user as u32);
    let from = own.from;
    let to = own.to;
    replay::replay_under(m, &shared[from..to], text)
}

// Writes a witness of the circuit in m, widened under the user's pins, to the front of out: `x` is put at no input that the user holds,
// and a witness that is not answered all under the user's pins stays.
pub fn widen(user: u64, shared: &[u8], m: &[u32], text: &[u8], out: &mut [u8]) -> WidenAnswer
    ensures { UserWidened m.now shared.now user text.now out.old (Widen.answered result) out.new }
{
    if !may(user, 1) {
        return WidenAnswer::Refused(18);
    }
    let own = pinned_runs::own_bytes(shared.len(), user as u32);
    let from = own.from;
    let to = own.to;
    widen::widen_under(m, &shared[from..to], text, out)
}

// Puts the circuit that m holds at the front of out, in form 0 as text, in form 1 in binary form. Pins do not change what is written.
pub fn write(user: u64, m: &[u32], form: u64, out: &mut [u8]) -> WriteAnswer
    ensures { UserWritten m.now user form out.old (Write.answered result) out.new }
{
    if !may(user, 1) {
        return WriteAnswer::Refused(18);
    }
    writer::write(m, form, out)
}

// Puts the run of a witness of the circuit in m as text at the front of out, all wires or the inputs alone. A witness gives every bit of
// its run, so pins change nothing.
pub fn waveform(user: u64, m: &[u32], text: &[u8], only: bool, out: &mut [u8]) -> WaveformAnswer
    ensures { UserWaveformed m.now user only text.now out.old (Waveform.answered result) out.new }
{
    if !may(user, 1) {
        return WaveformAnswer::Refused(18);
    }
    waveform::waveform(m, text, only, out)
}

// Puts the text of the circuit of a seed and counts at the front of out. Nothing is loaded.
pub fn generate(user: u64, seed: u64, i: u64, l: u64, a: u64, out: &mut [u8]) -> GenerateAnswer
    ensures { UserGenerated user seed i l a out.old (Generate.answered result) out.new }
{
    if !may(user, 1) {
        return GenerateAnswer::Refused(18);
    }
    generate::generate(seed, i, l, a, out)
}
