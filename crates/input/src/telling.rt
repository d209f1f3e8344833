// Writing, and telling on standard error why a call of the system failed.
ghost use Rattle.std.specs.Prelude.{◌≡◌, ◌≤◌, length, IsOk};

use std::fmt;
use std::io::{Error, Print};

// The front of a text that is written piece by piece.
#[derive(Clone, Copy)]
struct Words {
    bytes: [u8; 128],
    count: usize,
}

impl fmt::Write for Words {
    fn write_str(&mut self, s: &str) -> fmt::Result {
        for b in s.as_bytes() {
            let n = self.count;
            if n < 128 {
                self.bytes[n] = *b;
                self.count = n + 1;
            }
        }
        Ok(())
    }
}

// Where the number of the error begins, which stands behind its words.
fn words_end(text: &[u8]) -> usize
    ensures { result ≤ length text.now }
{
    for i in 0..text.len() {
        if text[i..].starts_with(b" (os error ") {
            return i;
        }
    }
    text.len()
}

// Writes all of text, or stops at the first write that takes nothing, which is the system's error 0, or fails, when some of text may have
// been written. One that a signal interrupts before it moves a byte counts as failed. On an empty text it makes no call.
pub fn write_all<P: Print>(to: &P, text: &[u8]) -> Result<(), Error>
    ensures { length text.now ≡ 0 → IsOk result }
{
    let mut done: usize = 0;
    while done < text.len() {
        match to.write_some(&text[done..])? {
            0 => return Err(Error::from_raw_os_error(0)),
            n => done += n,
        }
    }
    Ok(())
}

// Writes to standard error. Where that fails, there is nowhere to tell it.
pub fn note(rt: HostRuntime, text: &[u8]) {
    let _ = write_all(&rt.stderr(), text);
}

// Writes what stands before the number of an error.
fn note_words(rt: HostRuntime, text: &[u8]) {
    let end = words_end(text);
    note(rt, &text[..end]);
}

// Writes a line to standard error: what failed, as the caller names it, a colon and the words for the system's error, which is 0 for an
// error that is none of the system's.
pub fn fail(rt: HostRuntime, what: &[u8], error: Error) {
    let mut words = Words {
        bytes: [0u8; 128],
        count: 0,
    };
    let code = error.raw_os_error().unwrap_or(0);
    let _ = fmt::Write::write(&mut words, Error::from_raw_os_error(code));
    note(rt, what);
    note(rt, b": ");
    note_words(rt, &words.bytes);
    note(rt, b"\n");
}
