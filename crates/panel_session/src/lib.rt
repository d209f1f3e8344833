// A request of the resident program, from its bytes and those of the files that it names to what is printed.
#![tactic(auto)]

ghost use Rattle.std.specs.Prelude.{◌≡◌, cond, List, ℕ, ◌≤◌, length};
ghost use Rattle.aiger.specs.Text.{bytes};
ghost use Rattle.replies.specs.Refusal.{refusal_text};
ghost use Rattle.call_forms.specs.History.{State};
ghost use Rattle.panel_lines.specs.Grammar.{parse};
ghost use Rattle.panel_names.specs.Naming.{named_by};
ghost use Rattle.panel_session.specs.Session.{Files};
ghost use Rattle.panel_session.specs.Answered.{LineAlone, Answered};

use panel_lines::Task;
use replies::Report;

// A line that is to be printed, its length, and how many bytes of the output follow it.
#[derive(Clone, Copy)]
pub struct Response {
    pub line: [u8; 128],
    pub count: usize,
    pub out: usize,
}

// What is to be printed by a report.
fn response_of(line: [u8; 128], r: Report) -> Response
    ensures { (result.line ≡ line) × (result.count ≡ r.line) × (result.out ≡ r.out) }
{
    Response {
        line,
        count: r.line,
        out: r.out,
    }
}

// Says that a request is no command.
fn malformed() -> Response
    ensures { LineAlone result (bytes "malformed\n") }
{
    let mut line = [0u8; 128];
    let count = output::put(&mut line, 0, b"malformed\n");
    Response {
        line,
        count,
        out: 0,
    }
}

// Says that a file cannot be read, or 18 to a user who may not ask.
fn missing(may: bool) -> Response
    ensures { LineAlone result (cond may (bytes "unreadable\n") (refusal_text 18)) }
{
    let mut line = [0u8; 128];
    if may {
        let count = output::put(&mut line, 0, b"unreadable\n");
        return Response {
            line,
            count,
            out: 0,
        };
    }
    let r = replies::refuse(&mut line, 18);
    response_of(line, r)
}

// Answers a request whose own line was not read: a read failed before it ended.
pub fn unread() -> Response
    ensures { (request : List ℕ) (s : State) (out : List ℕ) → Answered request Files.unread s out result s out }
{
    missing(true)
}

// Answers a request of whose files one cannot be read. A query names none.
pub fn unreadable(request: &[u8]) -> Response
    requires { 1 ≤ length (named_by (parse request.now)) }
    ensures { (s : State) (out : List ℕ) → Answered request.now Files.missing s out result s out }
{
    let Some(asked) = panel_lines::read_request(request) else {
        return malformed();
    };
    let user = asked.user;
    let task = asked.task;
    match task {
        Task::Ask(_) => malformed(),
        Task::Load(_) => missing(user == 0),
        Task::Preview(_) => missing(user <= 1),
        Task::Join(_, _) => missing(user == 0),
        Task::Witness(_, _) => missing(user <= 1),
    }
}

// Answers a request that names no file, or whose files were read.
pub fn respond(
    request: &[u8],
    first: &[u8],
    second: &[u8],
    m: &mut [u32],
    work: &mut [u32],
    pins: &mut [u8],
    out: &mut [u8],
) -> Response
    requires { (length m.old ≡ 33032) × (32 ≤ length out.old) }
    ensures { Answered request.now (Files.read first.now second.now)
        (record { memory = m.old; work = work.old; pins = pins.old }) out.old result
        (record { memory = m.new; work = work.new; pins = pins.new }) out.new }
{
    let Some(asked) = panel_lines::read_request(request) else {
        return malformed();
    };
    let user = asked.user;
    let task = asked.task;
    let mut line = [0u8; 128];
    match task {
        Task::Ask(q) => {
            let r = panel::query(user, q, m, work, pins, out, &mut line);
            response_of(line, r)
        }
        Task::Load(_) => {
            let r = panel::load(user, first, m, pins, &mut line);
            response_of(line, r)
        }
        Task::Preview(_) => {
            let r = panel::preview(user, first, m, out, &mut line);
            response_of(line, r)
        }
        Task::Join(_, _) => {
            let r = panel_join::join(user, first, second, m, pins, &mut line);
            response_of(line, r)
        }
        Task::Witness(v, _) => {
            let r = panel_files::view(user, v, first, m, pins, out, &mut line);
            response_of(line, r)
        }
    }
}
