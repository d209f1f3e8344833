// The work of the command search: from the bytes of a file to what is printed. What is to be printed is left at the fronts of line, out and
// note.
#![tactic(auto)]

ghost use Rattle.std.specs.Prelude.{◌≡◌, ◌++◌, ◌≤◌, length};
ghost use Rattle.aiger.specs.Text.{bytes};
ghost use Rattle.aiger.specs.Memory.{Holds};
ghost use Rattle.layout.specs.Words.{circuit_in};
ghost use Rattle.output.specs.Row.{place_text};
ghost use Rattle.search.specs.Chosen.{said};
ghost use Rattle.replies.specs.Reply.{Fronts};
ghost use Rattle.replies.specs.Loading.{loaded_words};
ghost use Rattle.search_command.specs.Texts.{
  said_words,
  note_text,
  note_of,
  searched_answer,
  searched_reply,
  search_reply,
  search_note,
  SaidIs,
};

use load::LoadAnswer;
use search::{SearchAnswer, Terms};

// How many bytes are to be printed: of the line, of the output after it, and of the note, which goes to standard error.
#[derive(Clone, Copy)]
pub struct Said {
    pub line: usize,
    pub out: usize,
    pub note: usize,
}

// Writes that frame t is spent, and the place that was reached in it.
fn write_spent(line: &mut [u8], t: u32, reached: u64) -> usize
    requires { 128 ≤ length line.old }
    ensures { Fronts (bytes "spent " ++ place_text t reached) line.old result line.new }
{
    let at = output::put(line, 0, b"spent ");
    output::put_place(line, at, t, reached)
}

// Writes what a search says to the front of line: with its cause in words where it refuses.
pub fn write_answer(line: &mut [u8], answer: SearchAnswer) -> usize
    requires { 128 ≤ length line.old }
    ensures { Fronts (said_words (said answer)) line.old result line.new }
{
    match answer {
        SearchAnswer::Found(t, _) => replies::write_line(line, b"found ", t),
        SearchAnswer::Nothing(k, _) => replies::write_line(line, b"none ", k),
        SearchAnswer::Spent(t, reached) => write_spent(line, t, reached),
        SearchAnswer::Refused(n) => replies::write_refusal(line, n),
    }
}

// Writes that no frame at all has a hit to the front of note, where this is told.
fn put_note(note: &mut [u8], never: bool) -> usize
    requires { 16 ≤ length note.old }
    ensures { Fronts (note_text never) note.old result note.new }
{
    if !never {
        return 0;
    }
    output::put(note, 0, b"no frame at all\n")
}

// Writes what a search tells on standard error to the front of note.
fn write_note(note: &mut [u8], answer: SearchAnswer) -> usize
    requires { 16 ≤ length note.old }
    ensures { Fronts (note_of (said answer)) note.old result note.new }
{
    match answer {
        SearchAnswer::Nothing(_, never) => put_note(note, never),
        SearchAnswer::Found(_, _) => 0,
        SearchAnswer::Spent(_, _) => 0,
        SearchAnswer::Refused(_) => 0,
    }
}

// Searches the circuit in m.
fn search_loaded(
    m: &[u32],
    q: Terms,
    work: &mut [u32],
    out: &mut [u8],
    line: &mut [u8],
    note: &mut [u8],
) -> Said
    requires { Holds m.now (circuit_in m.now) × (128 ≤ length line.old) × (16 ≤ length note.old) }
    ensures { SaidIs
        (searched_reply (circuit_in m.now) q.b q.k q.d (length work.old) (length out.old))
        (note_of
        (searched_answer (circuit_in m.now) q.b q.k q.d (length work.old) (length out.old)))
        line.old out.old note.old result line.new out.new note.new }
{
    let answer = search::search(m, q.b, q.k, q.d, work, out);
    let witness = job::shown_length(answer);
    let length = write_answer(line, answer);
    let told = write_note(note, answer);
    Said {
        line: length,
        out: witness,
        note: told,
    }
}

// Loads a file and searches its circuit.
pub fn search(
    file: &[u8],
    q: Terms,
    m: &mut [u32],
    work: &mut [u32],
    out: &mut [u8],
    line: &mut [u8],
    note: &mut [u8],
) -> Said
    requires { (length m.old ≡ 33032) × (length work.old ≡ 1048576) × (length out.old ≡ 66825) × (128 ≤ length line.old)
        × (16 ≤ length note.old) }
    ensures leaves { SaidIs (search_reply file.now q.b q.k q.d) (search_note file.now q.b q.k q.d)
        line.old out.old note.old result line.new out.new note.new }
    ensures memory { m.new ≡ loaded_words m.old file.now }
{
    match load::load(file, m) {
        LoadAnswer::Refused(n) => {
            let length = replies::write_refusal(line, n);
            Said {
                line: length,
                out: 0,
                note: 0,
            }
        }
        LoadAnswer::Loaded(_) => search_loaded(m, q, work, out, line, note),
    }
}
