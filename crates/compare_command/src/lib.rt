// The work of the command compare on one pair of outputs: a search of a bad line of the joined circuit. What is to be printed is left
// at the fronts of line and out.
#![tactic(auto)]

ghost use Rattle.std.specs.Prelude.{◌≡◌, ◌++◌, ◌+◌, ◌≤◌, length};
ghost use Rattle.aiger.specs.Text.{bytes, digits};
ghost use Rattle.aiger.specs.Memory.{Holds};
ghost use Rattle.layout.specs.Words.{circuit_in};
ghost use Rattle.output.specs.Row.{place_text};
ghost use Rattle.search.specs.Chosen.{said};
ghost use Rattle.replies.specs.Reply.{Fronts};
ghost use Rattle.compare_command.specs.Texts.{output_line, said_words, is_refused, PairSaid};

use search::SearchAnswer;

// A bound, and a budget for each frame.
#[derive(Clone, Copy)]
pub struct Bounds {
    pub k: u64,
    pub d: u64,
}

// How many bytes of the line and of the output are to be printed, and whether the search was refused.
#[derive(Clone, Copy)]
pub struct Said {
    pub line: usize,
    pub out: usize,
    pub refused: bool,
}

// Writes `output j`, a word of at most 20 bytes, n and a line feed.
fn write_output(line: &mut [u8], j: u32, word: &[u8], n: u32) -> usize
    requires { (128 ≤ length line.old) × (length word.now ≤ 20) }
    ensures { Fronts (output_line j word.now n) line.old result line.new }
{
    let number = output::put(line, 0, b"output ");
    let words = output::put_number(line, number, j);
    let at = output::put(line, words, word);
    let end = output::put_number(line, at, n);
    output::put(line, end, b"\n")
}

// Writes `output j`, that frame t is spent, and the place that was reached in it.
fn write_spent(line: &mut [u8], j: u32, t: u32, reached: u64) -> usize
    requires { 128 ≤ length line.old }
    ensures { Fronts (bytes "output " ++ digits j ++ bytes ": spent " ++ place_text t reached) line.old result line.new }
{
    let number = output::put(line, 0, b"output ");
    let words = output::put_number(line, number, j);
    let at = output::put(line, words, b": spent ");
    output::put_place(line, at, t, reached)
}

// Writes what a search of pair j says.
fn write_said(line: &mut [u8], j: u32, answer: SearchAnswer) -> usize
    requires { 128 ≤ length line.old }
    ensures { Fronts (said_words j (said answer)) line.old result line.new }
{
    match answer {
        SearchAnswer::Found(t, _) => write_output(line, j, b": found ", t),
        SearchAnswer::Nothing(k, _) => write_output(line, j, b": the same up to ", k),
        SearchAnswer::Spent(t, reached) => write_spent(line, j, t, reached),
        SearchAnswer::Refused(n) => replies::write_refusal(line, n),
    }
}

fn is_refused(answer: SearchAnswer) -> bool
    ensures { result ≡ is_refused (said answer) }
{
    match answer {
        SearchAnswer::Refused(_) => true,
        SearchAnswer::Found(_, _) => false,
        SearchAnswer::Nothing(_, _) => false,
        SearchAnswer::Spent(_, _) => false,
    }
}

// Searches bad line j of the circuit in m.
pub fn compare(
    m: &[u32],
    j: u32,
    q: Bounds,
    work: &mut [u32],
    out: &mut [u8],
    line: &mut [u8],
) -> Said
    requires { Holds m.now (circuit_in m.now) × (128 ≤ length line.old) }
    ensures { PairSaid (circuit_in m.now) j q.k q.d (length work.old) line.old out.old result
        line.new out.new (length out.old) }
{
    let b = j as u64;
    let answer = search::search(m, b, q.k, q.d, work, out);
    let witness = job::shown_length(answer);
    let length = write_said(line, j, answer);
    let refused = is_refused(answer);
    Said {
        line: length,
        out: witness,
        refused,
    }
}
