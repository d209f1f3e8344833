// The bytes of a file, gathered read by read. The fields are this module's own, so that a content grows by what a read gave, and by nothing
// else.
ghost use Rattle.std.specs.Prelude.{◌≡◌, ℕ, ◌+◌, ◌≤◌, ◌<◌, length, take};
ghost use Rattle.input.specs.Reading.{IsPrefixLen, error_given, is_failure};
ghost use Rattle.input.specs.Contents.{nothing, size_of, extended, Within, Grows, GoesOn};

use crate::reading;
use crate::reading::{Read, Source};

// What one read gave: its bytes, at the front, and the number that the system gave.
#[derive(Clone, Copy)]
pub struct Chunk {
    bytes: [u8; 4096],
    read: Read,
}

// The bytes of a file so far, at the front; how many they are; how many reads there were; and the last of them. A witness has at most
// 66,825 bytes, and no file that is not refused has more.
#[derive(Clone, Copy)]
pub struct Content {
    bytes: [u8; 66826],
    count: usize,
    reads: u64,
    last: Read,
}

// A content, and the read that made it of the one before.
#[derive(Clone, Copy)]
pub struct Extended {
    content: Content,
    chunk: Chunk,
}

// Nothing was read, as of a file that could not be opened.
pub fn unread() -> Content
    ensures { result ≡ nothing }
{
    Content {
        bytes: [0u8; 66826],
        count: 0,
        reads: 0,
        last: reading::failure(),
    }
}

// Reads once, at most n bytes.
fn read_chunk<S: Source>(source: &mut S, n: usize) -> Chunk
    requires { n ≤ 4096 }
    ensures { (size_of result ≤ n) × IsPrefixLen (size_of result) result.bytes }
{
    let mut bytes = [0u8; 4096];
    let read = reading::read_once(source, &mut bytes[..n]);
    Chunk { bytes, read }
}

// How many bytes are asked for: as many as have room, and at most 4,096.
fn asked(count: usize) -> usize
    requires { count ≤ 66826 }
    ensures { (result ≤ 4096) × (count + result ≤ 66826) }
{
    let room = 66826 - count;
    if room < 4096 {
        return room;
    }
    4096
}

// A content with the bytes of one read more.
fn joined(c: Content, chunk: Chunk) -> Content
    requires { Within c × (c.count + size_of chunk ≤ 66826) × IsPrefixLen (size_of chunk) chunk.bytes × (c.reads < 18446744073709551615) }
    ensures { result ≡ extended c chunk }
{
    let n = c.count;
    let reads = c.reads;
    let read = chunk.read;
    let k = reading::count_of(read);
    let piece = chunk.bytes;
    let mut all = c.bytes;
    all[n..n + k].copy_from_slice(&piece[..k]);
    Content {
        bytes: all,
        count: n + k,
        reads: reads + 1,
        last: read,
    }
}

// Reads once more.
pub fn advance<S: Source>(c: Content, source: &mut S) -> Extended
    requires { Within c × (c.reads < 18446744073709551615) }
    ensures { Grows c result }
{
    let chunk = read_chunk(source, asked(c.count));
    let content = joined(c, chunk);
    Extended { content, chunk }
}

pub fn content_of(e: Extended) -> Content
    ensures { result ≡ e.content }
{
    e.content
}

// Whether the file goes on: the last read gave a byte, there is room, and a read more can be counted.
pub fn goes_on(e: Extended) -> bool
    ensures { GoesOn e.content result }
{
    let c = e.content;
    let last = c.last;
    if reading::count_of(last) == 0 {
        return false;
    }
    if c.count == 66826 {
        return false;
    }
    if c.reads < u64::MAX {
        return true;
    }
    false
}

// The bytes of a content, of which the first `size_of` are the file's own.
pub fn bytes_of(c: Content) -> [u8; 66826]
    ensures { result ≡ c.bytes }
{
    c.bytes
}

pub fn size_of(c: Content) -> usize
    ensures { result ≡ c.count }
{
    c.count
}

// Whether the last read failed, or the file could not be opened.
pub fn is_failed(c: Content) -> bool
    ensures { result ≡ is_failure c.last.given }
{
    let last = c.last;
    reading::has_failed(last)
}

// The number of the error with which the last read failed, as the system counts them.
pub fn error_of(c: Content) -> i32
    ensures { result ≡ error_given c.last.given }
{
    reading::error_of(c.last)
}
