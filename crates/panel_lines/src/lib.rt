// A request of the resident program, which is a line of its input, as a command.
#![tactic(auto)]

ghost use Rattle.std.specs.Prelude.{◌≡◌, cond, ◌≤◌, length, drop};
ghost use Rattle.aiger.specs.Lists.{same};
ghost use Rattle.std.proofs.Math.Option.{some};
ghost use Rattle.arguments.specs.Arguments.{meant};
ghost use Rattle.panel_lines.specs.Grammar.{
  two_numbers,
  pin_of,
  search_of,
  fold_of,
  form_of,
  write_of,
  load_of,
  preview_of,
  join_of,
  view_of,
  flag_of,
  waveform_of,
  generate_of,
  place_number,
  search_from_of,
  verb_of,
  command_of,
  parse,
};
ghost use Rattle.panel_lines.specs.Reading.{
  Inside,
  bytes_of,
  Ends,
  WordIs,
  NumberIs,
  SeedIs,
  PlaceIs,
  NameIs,
  TaskIs,
  RequestIs,
};

// A part of a request: from its first byte to the one past its last.
#[derive(Clone, Copy)]
pub struct Part {
    pub from: usize,
    pub to: usize,
}

// The word after the user's number.
#[derive(Clone, Copy)]
enum Verb {
    Pin,
    Search,
    Fold,
    Write,
    Load,
    Preview,
    Join,
    Replay,
    Widen,
    Waveform,
    Generate,
    SearchFrom,
}

// What asks about the loaded circuit, sets a pin of it, or needs no circuit.
#[derive(Clone, Copy)]
pub enum Query {
    Pin(u64, u64),
    Search(u64, u64, u64),
    Fold(u64, u64),
    Write(u64),
    Generate(u64, u64, u64, u64),
    SearchFrom(u64, u64, u64, u64),
}

// What is done with a witness of the loaded circuit. A waveform has the inputs alone where it says so.
#[derive(Clone, Copy)]
pub enum View {
    Replay,
    Widen,
    Waveform(bool),
}

// What is to be done. Parts are the names of files.
#[derive(Clone, Copy)]
pub enum Task {
    Ask(Query),
    Load(Part),
    Preview(Part),
    Join(Part, Part),
    Witness(View, Part),
}

// Who asks, and what for.
#[derive(Clone, Copy)]
pub struct Request {
    pub user: u64,
    pub task: Task,
}

// Where the word that begins at a position ends: at the next space, or with the request.
fn word_end(request: &[u8], from: usize) -> usize
    requires { from ≤ length request.now }
    ensures { Ends request.now from result }
{
    let mut i = from;
    while i < request.len() {
        if request[i] == b' ' {
            return i;
        }
        i += 1;
    }
    i
}

// The word after the space at a position. It is not empty.
fn word_after(request: &[u8], at: usize) -> Option<Part>
    requires { at ≤ length request.now }
    ensures { WordIs request.now at result }
{
    if at == request.len() {
        return None;
    }
    let from = at + 1;
    let to = word_end(request, from);
    if to == from {
        return None;
    }
    Some(Part { from, to })
}

// The number after the space at a position, and where it ends.
fn number_after(request: &[u8], at: usize) -> Option<(u64, usize)>
    requires { at ≤ length request.now }
    ensures { NumberIs request.now at result }
{
    let Part { from, to } = word_after(request, at)?;
    let n = arguments::read_argument(&request[from..to])?;
    Some((n, to))
}

// The seed after the space at a position, and where it ends.
fn seed_after(request: &[u8], at: usize) -> Option<(u64, usize)>
    requires { at ≤ length request.now }
    ensures { SeedIs request.now at result }
{
    let Part { from, to } = word_after(request, at)?;
    let n = arguments::read_seed(&request[from..to])?;
    Some((n, to))
}

// The place after the space at a position, and where it ends.
fn place_after(request: &[u8], at: usize) -> Option<(u64, usize)>
    requires { at ≤ length request.now }
    ensures { PlaceIs request.now at result }
{
    let Part { from, to } = word_after(request, at)?;
    let n = arguments::read_place(&request[from..to])?;
    Some((n, to))
}

// The place and the number after a position, where nothing follows them.
fn place_number(request: &[u8], at: usize) -> Option<(u64, u64)>
    requires { at ≤ length request.now }
    ensures { meant result ≡ place_number (drop at request.now) }
{
    let (a, next) = place_after(request, at)?;
    let (b, end) = number_after(request, next)?;
    if end < request.len() {
        return None;
    }
    Some((a, b))
}

// The two numbers after a position, where nothing follows them.
fn two_numbers(request: &[u8], at: usize) -> Option<(u64, u64)>
    requires { at ≤ length request.now }
    ensures { meant result ≡ two_numbers (drop at request.now) }
{
    let (a, next) = number_after(request, at)?;
    let (b, end) = number_after(request, next)?;
    if end < request.len() {
        return None;
    }
    Some((a, b))
}

// The word after a position, where nothing follows it.
fn one_name(request: &[u8], at: usize) -> Option<Part>
    requires { at ≤ length request.now }
    ensures { NameIs request.now at result }
{
    let name = word_after(request, at)?;
    if name.to < request.len() {
        return None;
    }
    Some(name)
}

// The arguments `INPUT VALUE` of pin.
fn read_pin(request: &[u8], at: usize) -> Option<Task>
    requires { at ≤ length request.now }
    ensures { TaskIs request.now (pin_of (drop at request.now)) result }
{
    let (input, value) = two_numbers(request, at)?;
    Some(Task::Ask(Query::Pin(input, value)))
}

// The arguments `b k D` of search.
fn read_search(request: &[u8], at: usize) -> Option<Task>
    requires { at ≤ length request.now }
    ensures { TaskIs request.now (search_of (drop at request.now)) result }
{
    let (b, next) = number_after(request, at)?;
    let (k, d) = two_numbers(request, next)?;
    Some(Task::Ask(Query::Search(b, k, d)))
}

// The arguments `b t` of fold.
fn read_fold(request: &[u8], at: usize) -> Option<Task>
    requires { at ≤ length request.now }
    ensures { TaskIs request.now (fold_of (drop at request.now)) result }
{
    let (b, t) = two_numbers(request, at)?;
    Some(Task::Ask(Query::Fold(b, t)))
}

// The argument FILE of load.
fn read_load(request: &[u8], at: usize) -> Option<Task>
    requires { at ≤ length request.now }
    ensures { TaskIs request.now (load_of (drop at request.now)) result }
{
    let file = one_name(request, at)?;
    Some(Task::Load(file))
}

// The argument FILE of preview.
fn read_preview(request: &[u8], at: usize) -> Option<Task>
    requires { at ≤ length request.now }
    ensures { TaskIs request.now (preview_of (drop at request.now)) result }
{
    let file = one_name(request, at)?;
    Some(Task::Preview(file))
}

// Whether a part of a request is a word.
fn is_word(request: &[u8], part: Part, word: &[u8]) -> bool
    requires { Inside request.now part }
    ensures { result ≡ same (bytes_of request.now part) word.now }
{
    let from = part.from;
    let to = part.to;
    &request[from..to] == word
}

// The arguments `OLD NEW` of join.
fn read_join(request: &[u8], at: usize) -> Option<Task>
    requires { at ≤ length request.now }
    ensures { TaskIs request.now (join_of (drop at request.now)) result }
{
    let old = word_after(request, at)?;
    let new = one_name(request, old.to)?;
    Some(Task::Join(old, new))
}

// The argument WITNESS of a view.
fn read_view(request: &[u8], at: usize, view: View) -> Option<Task>
    requires { at ≤ length request.now }
    ensures { TaskIs request.now (view_of view (drop at request.now)) result }
{
    let witness = one_name(request, at)?;
    Some(Task::Witness(view, witness))
}

// Whether a word that may be given is all that follows a position, or nothing does.
fn read_flag(request: &[u8], at: usize, word: &[u8]) -> Option<bool>
    requires { at ≤ length request.now }
    ensures { meant result ≡ flag_of word.now (drop at request.now) }
{
    if at == request.len() {
        return Some(false);
    }
    let given = one_name(request, at)?;
    if is_word(request, given, word) {
        return Some(true);
    }
    None
}

// The form that a part of a request is.
fn read_form(request: &[u8], part: Part) -> Option<u64>
    requires { Inside request.now part }
    ensures { meant result ≡ form_of (bytes_of request.now part) }
{
    if is_word(request, part, b"binary") {
        return Some(1);
    }
    let from = part.from;
    let to = part.to;
    arguments::read_argument(&request[from..to])
}

// The argument `[binary | FORM]` of write.
fn read_write(request: &[u8], at: usize) -> Option<Task>
    requires { at ≤ length request.now }
    ensures { TaskIs request.now (write_of (drop at request.now)) result }
{
    if at == request.len() {
        return Some(Task::Ask(Query::Write(0)));
    }
    let part = one_name(request, at)?;
    let form = read_form(request, part)?;
    Some(Task::Ask(Query::Write(form)))
}

// The arguments `WITNESS [inputs]` of waveform.
fn read_waveform(request: &[u8], at: usize) -> Option<Task>
    requires { at ≤ length request.now }
    ensures { TaskIs request.now (waveform_of (drop at request.now)) result }
{
    let witness = word_after(request, at)?;
    let only = read_flag(request, witness.to, b"inputs")?;
    Some(Task::Witness(View::Waveform(only), witness))
}

// The arguments `SEED I L A` of generate.
fn read_generate(request: &[u8], at: usize) -> Option<Task>
    requires { at ≤ length request.now }
    ensures { TaskIs request.now (generate_of (drop at request.now)) result }
{
    let (seed, counts) = seed_after(request, at)?;
    let (i, next) = number_after(request, counts)?;
    let (l, a) = two_numbers(request, next)?;
    Some(Task::Ask(Query::Generate(seed, i, l, a)))
}

// The arguments `b t PLACE D` of search-from.
fn read_search_from(request: &[u8], at: usize) -> Option<Task>
    requires { at ≤ length request.now }
    ensures { TaskIs request.now (search_from_of (drop at request.now)) result }
{
    let (b, frame) = number_after(request, at)?;
    let (t, next) = number_after(request, frame)?;
    let (place, d) = place_number(request, next)?;
    Some(Task::Ask(Query::SearchFrom(b, t, place, d)))
}

// A verb where a part of a request is its word, and what another answer says where it is not.
fn verb_where(
    request: &[u8],
    part: Part,
    word: &[u8],
    verb: Verb,
    other: Option<Verb>,
) -> Option<Verb>
    requires { Inside request.now part }
    ensures { meant result ≡ cond (same (bytes_of request.now part) word.now) (some verb) (meant other) }
{
    if is_word(request, part, word) {
        return Some(verb);
    }
    other
}

// The verb that a part of a request is.
fn verb_of(request: &[u8], part: Part) -> Option<Verb>
    requires { Inside request.now part }
    ensures { meant result ≡ verb_of (bytes_of request.now part) }
{
    let verb = None;
    let verb = verb_where(request, part, b"search-from", Verb::SearchFrom, verb);
    let verb = verb_where(request, part, b"generate", Verb::Generate, verb);
    let verb = verb_where(request, part, b"waveform", Verb::Waveform, verb);
    let verb = verb_where(request, part, b"widen", Verb::Widen, verb);
    let verb = verb_where(request, part, b"replay", Verb::Replay, verb);
    let verb = verb_where(request, part, b"join", Verb::Join, verb);
    let verb = verb_where(request, part, b"preview", Verb::Preview, verb);
    let verb = verb_where(request, part, b"load", Verb::Load, verb);
    let verb = verb_where(request, part, b"write", Verb::Write, verb);
    let verb = verb_where(request, part, b"fold", Verb::Fold, verb);
    let verb = verb_where(request, part, b"search", Verb::Search, verb);
    verb_where(request, part, b"pin", Verb::Pin, verb)
}

// The command of a verb, with what follows it.
fn read_task(request: &[u8], at: usize, verb: Verb) -> Option<Task>
    requires { at ≤ length request.now }
    ensures { TaskIs request.now (command_of verb (drop at request.now)) result }
{
    match verb {
        Verb::Pin => read_pin(request, at),
        Verb::Search => read_search(request, at),
        Verb::Fold => read_fold(request, at),
        Verb::Write => read_write(request, at),
        Verb::Load => read_load(request, at),
        Verb::Preview => read_preview(request, at),
        Verb::Join => read_join(request, at),
        Verb::Replay => read_view(request, at, View::Replay),
        Verb::Widen => read_view(request, at, View::Widen),
        Verb::Waveform => read_waveform(request, at),
        Verb::Generate => read_generate(request, at),
        Verb::SearchFrom => read_search_from(request, at),
    }
}

// The user and the task of a request, where it is a command. The line feed that ended its line is no part of it.
pub fn read_request(request: &[u8]) -> Option<Request>
    ensures { RequestIs request.now (parse request.now) result }
{
    if 4096 < request.len() {
        return None;
    }
    let end = word_end(request, 0);
    let user = arguments::read_argument(&request[..end])?;
    let part = word_after(request, end)?;
    let verb = verb_of(request, part)?;
    let task = read_task(request, part.to, verb)?;
    Some(Request { user, task })
}
