// The work of the command search-from: from the bytes of a file to what is printed. What is to be printed is left at the fronts of line
// and out.
#![tactic(auto)]

ghost use Rattle.std.specs.Prelude.{◌≡◌, ◌≤◌, length};
ghost use Rattle.aiger.specs.Memory.{Holds};
ghost use Rattle.layout.specs.Words.{circuit_in};
ghost use Rattle.replies.specs.Reply.{Leaves};
ghost use Rattle.replies.specs.Loading.{loaded_words};
ghost use Rattle.search_from_command.specs.Texts.{searched_from_reply, search_from_reply};

use load::LoadAnswer;
use place_limits::PlaceTerms;
use replies::Report;

// Searches the circuit in m from a place.
fn search_loaded(
    m: &[u32],
    q: PlaceTerms,
    work: &mut [u32],
    out: &mut [u8],
    line: &mut [u8],
) -> Report
    requires { Holds m.now (circuit_in m.now) × (128 ≤ length line.old) }
    ensures { Leaves
        (searched_from_reply (circuit_in m.now) q.b q.t q.place q.d (length work.old)
        (length out.old))
        line.old out.old result line.new out.new }
{
    let answer = search_from::search_from(m, q, work, out);
    let witness = job::shown_length(answer);
    let length = search_command::write_answer(line, answer);
    Report {
        line: length,
        out: witness,
    }
}

// Loads a file and searches its circuit from a place.
pub fn search_from(
    file: &[u8],
    q: PlaceTerms,
    m: &mut [u32],
    work: &mut [u32],
    out: &mut [u8],
    line: &mut [u8],
) -> Report
    requires { (length m.old ≡ 33032) × (length work.old ≡ 1048576) × (length out.old ≡ 66825) × (128 ≤ length line.old) }
    ensures leaves { Leaves (search_from_reply file.now q.b q.t q.place q.d) line.old out.old result
        line.new out.new }
    ensures memory { m.new ≡ loaded_words m.old file.now }
{
    match load::load(file, m) {
        LoadAnswer::Refused(n) => replies::refuse(line, n),
        LoadAnswer::Loaded(_) => search_loaded(m, q, work, out, line),
    }
}
