// The operations of `interface` for programs in C and Rust, in a static library: each function has the clauses of the function that it
// calls. A slice is a pointer and a length. library/yunverok.h tells the same in words.
#![tactic(auto)]

ghost use Rattle.std.specs.Prelude.{◌≡◌, not, [], eqb};
ghost use Rattle.call_forms.specs.History.{Call};
ghost use Rattle.interface.specs.Told.{version, lent, Called};

// The number of this interface.
#[unsafe(no_mangle)]
pub extern "C" fn yunverok_version() -> u64
    ensures { result ≡ version }
{
    interface::yunverok_version()
}

// Loads a file, which user 0 alone may do: circuit memory then holds its circuit, and all pins are free.
#[unsafe(no_mangle)]
pub extern "C" fn yunverok_load(
    user: u64,
    shared: &mut [u8],
    circuit: &mut [u32],
    file: &[u8],
    answer: &mut [u64],
) -> u64
    ensures { Called (lent shared.old circuit.old []) (Call.load user file.now)
        (lent shared.new circuit.new []) [] answer.old result
        answer.new }
{
    interface::yunverok_load(user, shared, circuit, file, answer)
}

// Joins the circuits in first and second into circuit memory, which user 0 alone may do; all pins are then free.
#[unsafe(no_mangle)]
pub extern "C" fn yunverok_join(
    user: u64,
    shared: &mut [u8],
    circuit: &mut [u32],
    first: &[u32],
    second: &[u32],
    answer: &mut [u64],
) -> u64
    ensures { Called (lent shared.old circuit.old []) (Call.join user first.now second.now)
        (lent shared.new circuit.new []) [] answer.old result
        answer.new }
{
    interface::yunverok_join(user, shared, circuit, first, second, answer)
}

// Tells what user 0's load of a file would answer for this circuit memory, and how many words the circuit needs.
#[unsafe(no_mangle)]
pub extern "C" fn yunverok_preview(
    user: u64,
    circuit: &[u32],
    file: &[u8],
    answer: &mut [u64],
) -> u64
    ensures { Called (lent [] circuit.now []) (Call.preview user file.now) (lent [] circuit.now []) []
        answer.old result
        answer.new }
{
    interface::yunverok_preview(user, circuit, file, answer)
}

// Sets the user's pin of an input: 0 or 1 holds the input at that value, 2 leaves it free.
#[unsafe(no_mangle)]
pub extern "C" fn yunverok_pin(
    user: u64,
    shared: &mut [u8],
    circuit: &[u32],
    input: u64,
    value: u64,
    answer: &mut [u64],
) -> u64
    ensures { Called (lent shared.old circuit.now []) (Call.set_pin user input value)
        (lent shared.new circuit.now []) [] answer.old result
        answer.new }
{
    interface::yunverok_pin(user, shared, circuit, input, value, answer)
}

// Searches frames 0 to k for a hit of bad line b under the user's pins, with a budget of d sequences for each frame.
#[unsafe(no_mangle)]
pub extern "C" fn yunverok_search(
    user: u64,
    shared: &[u8],
    circuit: &[u32],
    b: u64,
    k: u64,
    d: u64,
    work: &mut [u32],
    out: &mut [u8],
    answer: &mut [u64],
) -> u64
    ensures { Called (lent shared.now circuit.now work.old) (Call.search user b k d out.old)
        (lent shared.now circuit.now work.new)
        out.new
        answer.old result
        answer.new }
{
    interface::yunverok_search(user, shared, circuit, b, k, d, work, out, answer)
}

// Searches frame t for a hit of bad line b at or after a place, under the user's pins, with a budget of d sequences.
#[unsafe(no_mangle)]
pub extern "C" fn yunverok_search_from(
    user: u64,
    shared: &[u8],
    circuit: &[u32],
    b: u64,
    t: u64,
    place: u64,
    d: u64,
    work: &mut [u32],
    out: &mut [u8],
    answer: &mut [u64],
) -> u64
    ensures { Called (lent shared.now circuit.now work.old)
        (Call.search_from user b t place d out.old)
        (lent shared.now circuit.now work.new)
        out.new
        answer.old result
        answer.new }
{
    interface::yunverok_search_from(user, shared, circuit, b, t, place, d, work, out, answer)
}

// Writes the hit of bad line b at frame t, under the user's pins, as a circuit without latches.
#[unsafe(no_mangle)]
pub extern "C" fn yunverok_fold(
    user: u64,
    shared: &[u8],
    circuit: &[u32],
    b: u64,
    t: u64,
    work: &mut [u32],
    out: &mut [u8],
    answer: &mut [u64],
) -> u64
    ensures { Called (lent shared.now circuit.now work.old) (Call.fold user b t out.old)
        (lent shared.now circuit.now work.new)
        out.new
        answer.old result
        answer.new }
{
    interface::yunverok_fold(user, shared, circuit, b, t, work, out, answer)
}

// Replays a witness under the user's pins.
#[unsafe(no_mangle)]
pub extern "C" fn yunverok_replay(
    user: u64,
    shared: &[u8],
    circuit: &[u32],
    text: &[u8],
    answer: &mut [u64],
) -> u64
    ensures { Called (lent shared.now circuit.now []) (Call.replay user text.now)
        (lent shared.now circuit.now []) [] answer.old result
        answer.new }
{
    interface::yunverok_replay(user, shared, circuit, text, answer)
}

// Widens a witness under the user's pins.
#[unsafe(no_mangle)]
pub extern "C" fn yunverok_widen(
    user: u64,
    shared: &[u8],
    circuit: &[u32],
    text: &[u8],
    out: &mut [u8],
    answer: &mut [u64],
) -> u64
    ensures { Called (lent shared.now circuit.now []) (Call.widen user text.now out.old)
        (lent shared.now circuit.now [])
        out.new
        answer.old result
        answer.new }
{
    interface::yunverok_widen(user, shared, circuit, text, out, answer)
}

// Shows the run of a witness as a value change dump: all wires or, where inputs is not 0, the inputs alone.
#[unsafe(no_mangle)]
pub extern "C" fn yunverok_waveform(
    user: u64,
    circuit: &[u32],
    text: &[u8],
    inputs: u64,
    out: &mut [u8],
    answer: &mut [u64],
) -> u64
    ensures { Called (lent [] circuit.now [])
        (Call.waveform user (not (eqb inputs 0)) text.now out.old)
        (lent [] circuit.now [])
        out.new
        answer.old result
        answer.new }
{
    interface::yunverok_waveform(user, circuit, text, inputs, out, answer)
}

// Writes the circuit as an AIGER file: form 0 is the ASCII form, form 1 the binary form.
#[unsafe(no_mangle)]
pub extern "C" fn yunverok_write(
    user: u64,
    circuit: &[u32],
    form: u64,
    out: &mut [u8],
    answer: &mut [u64],
) -> u64
    ensures { Called (lent [] circuit.now []) (Call.write user form out.old) (lent [] circuit.now [])
        out.new
        answer.old result
        answer.new }
{
    interface::yunverok_write(user, circuit, form, out, answer)
}

// Writes the circuit of a seed and counts as an AIGER file in ASCII. It needs no memory but the output, so it takes no user: the call is
// that of user 0, and either user gets the same.
#[unsafe(no_mangle)]
pub extern "C" fn yunverok_generate(
    seed: u64,
    inputs: u64,
    latches: u64,
    gates: u64,
    out: &mut [u8],
    answer: &mut [u64],
) -> u64
    ensures { Called (lent [] [] []) (Call.generate 0 seed inputs latches gates out.old) (lent [] [] [])
        out.new
        answer.old result
        answer.new }
{
    interface::yunverok_generate(seed, inputs, latches, gates, out, answer)
}
