// Reading an open file, where a read that fails is told apart from the end of the file.
#![tactic(auto)]

mod content;
mod reading;
mod telling;

ghost use Rattle.std.specs.Prelude.{◌≡◌, ◌≤◌, length};
ghost use Rattle.input.specs.Reading.{is_failure};
ghost use Rattle.input.specs.Contents.{Within, Whole, Delivered, Ended};

pub use content::{Chunk, Content, bytes_of, error_of, is_failed, size_of, unread};
use reading::Source;
pub use reading::{Read, count_of, error_of as read_error_of, has_failed, read_once};
pub use telling::{fail, note, write_all};

// Reads an open file until it ends, a read fails, or 66,826 bytes were read.
pub fn read_content<S: Source>(source: &mut S) -> Content
    ensures { Whole result }
{
    let mut got = content::advance(content::unread(), source);
    while content::goes_on(got) {
        got = content::advance(content::content_of(got), source);
    }
    content::content_of(got)
}

// Copies a content to the front of buf, as much of it as has room. The answer is how many bytes these are.
pub fn deliver(c: Content, buf: &mut [u8]) -> usize
    requires { Within c }
    ensures { Delivered buf.new result c }
{
    let bytes = content::bytes_of(c);
    let n = content::size_of(c);
    let room = buf.len();
    if n <= room {
        buf[..n].copy_from_slice(&bytes[..n]);
        return n;
    }
    buf.copy_from_slice(&bytes[..room]);
    room
}

// How many bytes stand in a buffer, whether a read failed, and what was read. The last field is this crate's own.
#[derive(Clone, Copy)]
pub struct Got {
    pub count: usize,
    pub failed: bool,
    content: Content,
}

// Reads an open file into the front of buf, as much as has room.
pub fn read_all<S: Source>(source: &mut S, buf: &mut [u8]) -> Got
    ensures { Ended buf.new result }
{
    let content = read_content(source);
    let count = deliver(content, buf);
    let failed = content::is_failed(content);
    Got {
        count,
        failed,
        content,
    }
}
