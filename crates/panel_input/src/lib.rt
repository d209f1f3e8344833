// A request of the resident program: a line of standard input. A read that fails is no end of the input.
#![tactic(auto)]

mod gathering;

ghost use Rattle.panel_input.specs.Line.{Received};

pub use gathering::{RequestLine, count_of, has_ended, has_failed, line_of};

// Reads the next line of standard input, byte by byte. One of more than 4,096 bytes is kept as 4,097, which are no command.
pub fn receive(rt: HostRuntime) -> RequestLine
    ensures { Received result }
{
    let mut got = gathering::advance(rt, gathering::empty());
    while gathering::goes_on(got) {
        got = gathering::advance(rt, gathering::gathered_line(got));
    }
    gathering::gathered_line(got)
}
