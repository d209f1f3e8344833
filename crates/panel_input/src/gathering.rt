// A line that is gathered read by read. The fields are this module's own, so that a line grows by what a read gave, and by nothing else.
ghost use Rattle.std.specs.Prelude.{◌≡◌, ℕ, ◌<◌, length, get_or};
ghost use Rattle.input.specs.Reading.{Gave};
ghost use Rattle.panel_input.specs.Line.{empty_line, missed_read, input_end, line_feed, keep_byte, step, GoesOn};

use input::Read;
use std::io::Error;

// A read of one byte: the byte, and what the read gave.
#[derive(Clone, Copy)]
pub struct ByteRead {
    byte: u8,
    read: Read,
}

// A line so far: its bytes, how many they are, whether a read failed, how many reads failed in a row, whether nothing more is to be had,
// whether the line is over, and how many reads there were.
#[derive(Clone, Copy)]
pub struct RequestLine {
    line: [u8; 4097],
    count: usize,
    failed: bool,
    missed: u32,
    ended: bool,
    over: bool,
    reads: u64,
}

// A line, and the read that made it of the line before.
#[derive(Clone, Copy)]
pub struct Gathered {
    line: RequestLine,
    last: ByteRead,
}

// Nothing was read.
pub fn empty() -> RequestLine
    ensures { result ≡ empty_line }
{
    RequestLine {
        line: [0u8; 4097],
        count: 0,
        failed: false,
        missed: 0,
        ended: false,
        over: false,
        reads: 0,
    }
}

// Reads one byte.
fn read_byte(rt: HostRuntime, buf: &mut [u8]) -> ByteRead
    requires { ◌≡◌ {A = ℕ} (length buf.old) 1 }
    ensures { Gave buf.new result.read × (result.byte ≡ get_or buf.new 0 0) }
{
    let mut source = rt.stdin();
    let read = input::read_once(&mut source, buf);
    let byte = buf[0];
    ByteRead { byte, read }
}

// A read failed. An input that fails eight times in a row is lost.
fn missed_read(l: RequestLine) -> RequestLine
    requires { l.reads < 18446744073709551615 }
    ensures { result ≡ missed_read l }
{
    let line = l.line;
    let missed = l.missed;
    let reads = l.reads;
    if missed < 7 {
        return RequestLine {
            line,
            count: l.count,
            failed: true,
            missed: missed + 1,
            ended: false,
            over: false,
            reads: reads + 1,
        };
    }
    RequestLine {
        line,
        count: l.count,
        failed: true,
        missed,
        ended: true,
        over: true,
        reads: reads + 1,
    }
}

// The input ended: a line that has bytes, or in which a read failed, is over, and else there is none.
fn input_end(l: RequestLine) -> RequestLine
    requires { l.reads < 18446744073709551615 }
    ensures { result ≡ input_end l }
{
    let line = l.line;
    let reads = l.reads;
    let count = l.count;
    let failed = l.failed;
    RequestLine {
        line,
        count,
        failed,
        missed: 0,
        ended: (count == 0) & !failed,
        over: true,
        reads: reads + 1,
    }
}

// A line feed ends the line.
fn line_feed(l: RequestLine) -> RequestLine
    requires { l.reads < 18446744073709551615 }
    ensures { result ≡ line_feed l }
{
    let line = l.line;
    let reads = l.reads;
    RequestLine {
        line,
        count: l.count,
        failed: l.failed,
        missed: 0,
        ended: false,
        over: true,
        reads: reads + 1,
    }
}

// Any other byte is kept, where it has room, and else passed over.
fn keep_byte(l: RequestLine, b: u8) -> RequestLine
    requires { l.reads < 18446744073709551615 }
    ensures { result ≡ keep_byte l b }
{
    let reads = l.reads;
    let n = l.count;
    let mut line = l.line;
    if n < 4097 {
        line[n] = b;
        return RequestLine {
            line,
            count: n + 1,
            failed: l.failed,
            missed: 0,
            ended: false,
            over: false,
            reads: reads + 1,
        };
    }
    RequestLine {
        line,
        count: n,
        failed: l.failed,
        missed: 0,
        ended: false,
        over: false,
        reads: reads + 1,
    }
}

// A line after one read more.
fn stepped(l: RequestLine, r: ByteRead) -> RequestLine
    requires { l.reads < 18446744073709551615 }
    ensures { result ≡ step l r }
{
    let read = r.read;
    if input::has_failed(read) {
        return missed_read(l);
    }
    if input::count_of(read) == 0 {
        return input_end(l);
    }
    let b = r.byte;
    if b == b'\n' {
        return line_feed(l);
    }
    keep_byte(l, b)
}

// Says on standard error that a read failed, where the read before it did not.
fn say_failure(rt: HostRuntime, l: RequestLine, r: ByteRead) {
    let read = r.read;
    if input::has_failed(read) {
        if l.missed == 0 {
            let error = Error::from_raw_os_error(input::read_error_of(read));
            input::fail(rt, b"standard input", error);
        }
    }
}

// Reads once more.
pub fn advance(rt: HostRuntime, l: RequestLine) -> Gathered
    requires { l.reads < 18446744073709551615 }
    ensures { result.line ≡ step l result.last }
{
    let mut byte = [0u8; 1];
    let last = read_byte(rt, &mut byte);
    say_failure(rt, l, last);
    let line = stepped(l, last);
    Gathered { line, last }
}

pub fn gathered_line(g: Gathered) -> RequestLine
    ensures { result ≡ g.line }
{
    g.line
}

// Whether the line goes on, and a read more can be counted. No run uses the count up, and nothing says that a line ends.
pub fn goes_on(g: Gathered) -> bool
    ensures { GoesOn g.line result }
{
    let l = g.line;
    if l.over {
        return false;
    }
    if l.reads < u64::MAX {
        return true;
    }
    false
}

// The bytes of a line, of which the first `count_of` are the line's own.
pub fn line_of(l: RequestLine) -> [u8; 4097]
    ensures { result ≡ l.line }
{
    l.line
}

pub fn count_of(l: RequestLine) -> usize
    ensures { result ≡ l.count }
{
    l.count
}

// Whether a read failed before the line ended.
pub fn has_failed(l: RequestLine) -> bool
    ensures { result ≡ l.failed }
{
    l.failed
}

// Whether nothing more is to be had: the input ended before a byte of the line, or it is lost.
pub fn has_ended(l: RequestLine) -> bool
    ensures { result ≡ l.ended }
{
    l.ended
}
