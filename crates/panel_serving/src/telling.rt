// Answering a request and printing the answer at once. The field is this module's own, so that a value of this type says what was printed.
ghost use Rattle.std.specs.Prelude.{◌≡◌, ℕ, ◌+◌, ◌%◌, ◌≤◌, List, length};
ghost use Rattle.call_forms.specs.History.{State};
ghost use Rattle.panel_lines.specs.Grammar.{parse};
ghost use Rattle.panel_names.specs.Naming.{named_by};
ghost use Rattle.panel_session.specs.Session.{Files};
ghost use Rattle.panel_session.specs.Answered.{Answered};

use files::say;
use panel_session::Response;

// What was printed: the front of a line, and that of the output.
#[derive(Clone, Copy)]
pub struct Told {
    response: Response,
}

// Prints the front of a line and a text after it, in the bytes that `printed` of specs/Telling defines. That they are printed is for the
// system to say.
fn print(rt: HostRuntime, line: [u8; 128], count: usize, text: &[u8]) -> Told
    requires { count ≤ length line }
    ensures { result.response ≡ record { line = line; count = count; out = length text.now } }
{
    let out = text.len();
    files::say_number(rt, std::num::wrapping_add_usize(count, out) as u64);
    say(rt, b"\n");
    say(rt, &line[..count]);
    say(rt, text);
    let response = Response { line, count, out };
    Told { response }
}

// Prints the response to a request.
fn tell(rt: HostRuntime, response: Response, out: &[u8]) -> Told
    requires { (response.count ≤ length response.line) × (response.out ≤ length out.now) }
    ensures { result.response ≡ response }
{
    let line = response.line;
    let count = response.count;
    let written = response.out;
    print(rt, line, count, &out[..written])
}

// Answers a request that names no file, or whose files were read.
pub fn answer(
    rt: HostRuntime,
    request: &[u8],
    first: &[u8],
    second: &[u8],
    m: &mut [u32],
    work: &mut [u32],
    pins: &mut [u8],
    out: &mut [u8],
) -> Told
    requires { (length m.old ≡ 33032) × (32 ≤ length out.old) }
    ensures { Answered request.now (Files.read first.now second.now)
        (record { memory = m.old; work = work.old; pins = pins.old }) out.old result.response
        (record { memory = m.new; work = work.new; pins = pins.new }) out.new }
{
    let response = panel_session::respond(request, first, second, m, work, pins, out);
    tell(rt, response, out)
}

// Answers a request of whose files one cannot be read.
pub fn answer_unreadable(rt: HostRuntime, request: &[u8], out: &[u8]) -> Told
    requires { 1 ≤ length (named_by (parse request.now)) }
    ensures { (s : State) (out : List ℕ) → Answered request.now Files.missing s out result.response s out }
{
    tell(rt, panel_session::unreadable(request), out)
}

// Answers a request whose own line was not read.
pub fn answer_unread(rt: HostRuntime, out: &[u8]) -> Told
    ensures { (request : List ℕ) (s : State) (out : List ℕ) → Answered request Files.unread s out result.response s out }
{
    tell(rt, panel_session::unread(), out)
}

// How many bytes the answer has that was printed.
pub fn length_of(t: Told) -> u64
    ensures { result ≡ (t.response.count + t.response.out) % 18446744073709551616 }
{
    let response = t.response;
    let count = response.count;
    let out = response.out;
    std::num::wrapping_add_usize(count, out) as u64
}

// Prints nothing.
pub fn silence() -> Told
    ensures { (result.response.count ≡ 0) × (result.response.out ≡ 0) }
{
    let response = Response {
        line: [0u8; 128],
        count: 0,
        out: 0,
    };
    Told { response }
}
