// What the programs share: printing, and reading what arguments are or name. What fails is told on standard error.
#![tactic(auto)]

ghost use Rattle.std.specs.Prelude.{◌≡◌, true, ◌||◌, ◌≤◌, length, take};
ghost use Rattle.input.specs.Reading.{IsPrefixLen};
ghost use Rattle.input.specs.Contents.{Whole, nothing};
ghost use Rattle.arguments.specs.Arguments.{number_of, seed_of, place_of, meant};
ghost use Rattle.files.specs.Reading.{name_of, FiledAs, Names, Read, BothRead};

use input::Content;
use std::env::{Env, FillError};
use std::fs::File;
use std::io::Error;
use std::str;

// Numbers of the system's errors: no such argument, one that is too long, and a name that is no text.
const INVALID: i32 = 22;

const TOO_LONG: i32 = 36;

const NO_TEXT: i32 = 84;

// Writes a text to standard output.
pub fn say(rt: HostRuntime, text: &[u8]) {
    if let Err(error) = input::write_all(&rt, text) {
        input::fail(rt, b"standard output", error);
    }
}

// Writes the first n bytes of a text, or all of it where it has fewer.
pub fn say_front(rt: HostRuntime, text: &[u8], n: usize) {
    if n < text.len() {
        say(rt, &text[..n]);
    } else {
        say(rt, text);
    }
}

// Writes the first n bytes of a text, or all of it where it has fewer, to standard error.
pub fn note_front(rt: HostRuntime, text: &[u8], n: usize) {
    if n < text.len() {
        input::note(rt, &text[..n]);
    } else {
        input::note(rt, text);
    }
}

// Writes a number to standard output.
pub fn say_number(rt: HostRuntime, n: u64) {
    let _ = rt.print(n);
}

// Writes the line `refused n`.
pub fn say_refused(rt: HostRuntime, n: u32) {
    say(rt, b"refused ");
    say_number(rt, u64::from(n));
    say(rt, b"\n");
}

// A file that was read by its name: the first bytes of the name, as many as have room, how many these are, and what was read. The fields
// are this crate's own, so that a value of this type is one that `read_file` or `no_file` made.
#[derive(Clone, Copy)]
pub struct NamedFile {
    name: [u8; 4096],
    length: usize,
    content: Content,
}

// Copies a name to the front of kept, as much of it as has room. The answer is how many bytes these are.
fn keep_name(name: &[u8], kept: &mut [u8]) -> usize
    ensures { (result ≤ length kept.new) × (take result kept.new ≡ take (length kept.old) name.now) }
{
    let room = kept.len();
    let n = name.len();
    if n <= room {
        kept[..n].copy_from_slice(name);
        return n;
    }
    kept.copy_from_slice(&name[..room]);
    room
}

// The number of the system's error with which opening a file failed; INVALID where it has none.
fn system_number(error: Error) -> i32 {
    error.raw_os_error().unwrap_or(INVALID)
}

// Opens the file with a name, or tells the number of the error. A name that is no text is that of no file. The number and not an `Error`:
// with that, each read of a file makes three copies more of what it read.
fn open(rt: HostRuntime, name: &[u8]) -> Result<File, i32> {
    if name.len() >= 4096 {
        return Err(TOO_LONG);
    }
    let Ok(path) = str::from_utf8(name) else {
        return Err(NO_TEXT);
    };
    File::open(&rt, path).map_err(system_number)
}

// Reads the file with a name. That it is the file of this name is for the system to say.
fn read_named_content(rt: HostRuntime, name: &[u8]) -> Content
    ensures { Whole result }
{
    match open(rt, name) {
        Ok(mut file) => {
            let content = input::read_content(&mut file);
            if input::is_failed(content) {
                let error = Error::from_raw_os_error(input::error_of(content));
                input::fail(rt, name, error);
            }
            content
        }
        Err(code) => {
            input::fail(rt, name, Error::from_raw_os_error(code));
            input::unread()
        }
    }
}

// Reads the file with a name, and keeps the name. One of 4,096 bytes or more is the name of no file.
pub fn read_file(rt: HostRuntime, name: &[u8]) -> NamedFile
    ensures { (name_of result ≡ take 4096 name.now) × Whole result.content }
{
    let content = read_named_content(rt, name);
    let mut kept = [0u8; 4096];
    let length = keep_name(name, &mut kept);
    NamedFile {
        name: kept,
        length,
        content,
    }
}

// No file was read.
pub fn no_file() -> NamedFile
    ensures { (result.content ≡ nothing) × (result.length ≡ 0) }
{
    NamedFile {
        name: [0u8; 4096],
        length: 0,
        content: input::unread(),
    }
}

pub fn content_of(file: NamedFile) -> Content
    ensures { result ≡ file.content }
{
    file.content
}

// How many bytes stand in a buffer, whether a read failed, and the file. The last field is this crate's own. What was read before a failure
// is told too (`FiledAs`), so that the flag stands beside the count.
#[derive(Clone, Copy)]
pub struct Filed {
    pub count: usize,
    pub failed: bool,
    file: NamedFile,
}

// Reads the file with a name into the front of buf, as much as has room.
pub fn read_named(rt: HostRuntime, name: &[u8], buf: &mut [u8]) -> Filed
    ensures { FiledAs (take 4096 name.now) buf.new result }
{
    let file = read_file(rt, name);
    let content = file.content;
    let count = input::deliver(content, buf);
    let failed = input::is_failed(content);
    Filed {
        count,
        failed,
        file,
    }
}

// An argument of the program: which it is, its bytes at the front, how many they are, and what it lacks, where it is not all there. The
// fields are this crate's own, so that a value of this type is one that `argument` made.
#[derive(Clone, Copy)]
pub struct Word {
    index: usize,
    bytes: [u8; 4096],
    count: usize,
    lacks: Option<FillError>,
}

// Argument i. Which text it is, is said by the system. One that is missing or has no room counts no byte.
pub fn argument(rt: HostRuntime, i: usize) -> Word
    ensures { (result.index ≡ i) × IsPrefixLen result.count result.bytes }
{
    let mut bytes = [0u8; 4096];
    let got = rt.arg(i, &mut bytes);
    Word {
        index: i,
        bytes,
        count: got.unwrap_or(0),
        lacks: got.err(),
    }
}

// Copies argument i to the front of buf. The answer is how many bytes these are, 0 where there is no such argument or it has no room.
pub fn argument_text(rt: HostRuntime, i: usize, buf: &mut [u8]) -> usize
    ensures { IsPrefixLen result buf.new }
{
    rt.arg(i, buf).unwrap_or(0)
}

// How many arguments the program was started with, its own name among them. That is for the system to say: no clause could say more than
// the type does, so there is none.
pub fn argument_count(rt: HostRuntime) -> usize {
    let mut front = [0u8; 1];
    for i in 0..usize::MAX {
        if let Err(FillError::NotPresent) = rt.arg(i, &mut front) {
            return i;
        }
    }
    usize::MAX
}

// How many bytes stand in a buffer, whether a read failed, the argument that names the file, and the file. The last two fields are this
// crate's own.
#[derive(Clone, Copy)]
pub struct Fetched {
    pub count: usize,
    pub failed: bool,
    word: Word,
    file: NamedFile,
}

// The error of the system that is told for an argument that is not all there.
fn lack_error(lack: FillError) -> Error {
    match lack {
        FillError::NotPresent => Error::from_raw_os_error(INVALID),
        FillError::TooLong => Error::from_raw_os_error(TOO_LONG),
    }
}

// The file that a word names, or none where the word is not all there.
fn named_file(rt: HostRuntime, word: Word) -> NamedFile
    requires { IsPrefixLen word.count word.bytes }
    ensures { Names word result }
{
    match word.lacks {
        None => {
            let name = word.bytes;
            let count = word.count;
            read_file(rt, &name[..count])
        }
        Some(lack) => {
            input::fail(rt, b"argument", lack_error(lack));
            no_file()
        }
    }
}

// Reads the file that argument i names.
pub fn read_argument(rt: HostRuntime, i: usize, buf: &mut [u8]) -> Fetched
    ensures { Read i buf.new result }
{
    let word = argument(rt, i);
    let file = named_file(rt, word);
    let content = file.content;
    let count = input::deliver(content, buf);
    let failed = input::is_failed(content);
    Fetched {
        count,
        failed,
        word,
        file,
    }
}

// The file that argument i names is not read.
fn skip_argument(rt: HostRuntime, i: usize) -> Fetched
    ensures { (result.word.index ≡ i) × (result.file.content ≡ nothing) × (result.count ≡ 0) × (result.failed ≡ true) }
{
    Fetched {
        count: 0,
        failed: true,
        word: argument(rt, i),
        file: no_file(),
    }
}

// The number that a word is.
pub fn number_of(word: Word) -> Option<u64>
    requires { IsPrefixLen word.count word.bytes }
    ensures { meant result ≡ number_of (take word.count word.bytes) }
{
    let bytes = word.bytes;
    let count = word.count;
    arguments::read_argument(&bytes[..count])
}

// The seed that a word is.
pub fn seed_of(word: Word) -> Option<u64>
    requires { IsPrefixLen word.count word.bytes }
    ensures { meant result ≡ seed_of (take word.count word.bytes) }
{
    let bytes = word.bytes;
    let count = word.count;
    arguments::read_seed(&bytes[..count])
}

// The place that a word is.
pub fn place_of(word: Word) -> Option<u64>
    requires { IsPrefixLen word.count word.bytes }
    ensures { meant result ≡ place_of (take word.count word.bytes) }
{
    let bytes = word.bytes;
    let count = word.count;
    arguments::read_place(&bytes[..count])
}

// How much was read of two files, whether one of them was not read, and what was read of each. The last two fields are this crate's own.
#[derive(Clone, Copy)]
pub struct Two {
    pub first: usize,
    pub second: usize,
    pub failed: bool,
    one: Fetched,
    other: Fetched,
}

// What was read of two files.
fn both(one: Fetched, other: Fetched) -> Two
    ensures { (result.one ≡ one) × (result.other ≡ other) × (result.first ≡ one.count) × (result.second ≡ other.count)
        × (result.failed ≡ (one.failed || other.failed)) }
{
    Two {
        first: one.count,
        second: other.count,
        failed: one.failed | other.failed,
        one,
        other,
    }
}

// Reads the files that arguments i and j name. Where the first cannot be read the second is not, as one that could not be opened.
pub fn read_two(rt: HostRuntime, i: usize, j: usize, first: &mut [u8], second: &mut [u8]) -> Two
    ensures { BothRead i j first.new second.new result }
{
    let one = read_argument(rt, i, first);
    if one.failed {
        return both(one, skip_argument(rt, j));
    }
    both(one, read_argument(rt, j, second))
}

// Prints argument i and what is to stand after it.
pub fn say_argument(rt: HostRuntime, i: usize, after: &[u8]) {
    let word = argument(rt, i);
    let bytes = word.bytes;
    let count = word.count;
    say(rt, &bytes[..count]);
    say(rt, after);
}
