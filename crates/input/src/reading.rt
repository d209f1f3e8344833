// One read of standard input or of an open file. The field is this module's own, and no other crate can name `Source`, so that a value of
// this type is what the system gave.
ghost use Rattle.std.specs.Prelude.{◌≡◌, true, negsuc};
ghost use Rattle.input.specs.Reading.{Gave, IsPrefixLen, count_given, error_given, is_failure};

use std::fs::File;
use std::io::{Error, ErrorKind, Read as Reader, Stdin};

// What is read from: an open file, or standard input.
pub trait Source: Reader {}

impl Source for File {}

impl Source for Stdin {}

// What a read gave: the number of bytes at the front of the buffer, 0 at the end of the file, and below 0 where it failed: then it is the
// number of the error, turned about. One number, since `count_given`, `error_given` and `is_failure` of the clauses are said of it.
#[derive(Clone, Copy)]
pub struct Read {
    given: isize,
}

// A read that failed, of a file that could not be opened too.
pub fn failure() -> Read
    ensures { result ≡ record { given = negsuc 0 } }
{
    Read { given: -1 }
}

// A read that failed with an error.
fn failed(error: Error) -> Read
    ensures { is_failure result.given ≡ true }
{
    if let Some(code) = error.raw_os_error() {
        if code > 0 {
            return Read {
                given: -(code as isize),
            };
        }
    }
    failure()
}

// A read that gave count bytes.
fn gave(count: usize, buf: &[u8]) -> Read
    requires { IsPrefixLen count buf.now }
    ensures { Gave buf.now result }
{
    Read {
        given: count as isize,
    }
}

// Reads once, and again as long as a signal interrupts the read before a byte came.
pub fn read_once<S: Source>(source: &mut S, buf: &mut [u8]) -> Read
    ensures { Gave buf.new result }
{
    for _ in 0..u64::MAX {
        match source.read(buf) {
            Ok(count) => return gave(count, buf),
            Err(error) => {
                if error.kind() != ErrorKind::Interrupted {
                    return failed(error);
                }
            }
        }
    }
    failure()
}

pub fn count_of(r: Read) -> usize
    ensures { result ≡ count_given r.given }
{
    let given = r.given;
    if given > 0 {
        return given as usize;
    }
    0
}

pub fn has_failed(r: Read) -> bool
    ensures { result ≡ is_failure r.given }
{
    let given = r.given;
    given < 0
}

// The number of the error of a read that failed, as the system counts them.
pub fn error_of(r: Read) -> i32
    ensures { result ≡ error_given r.given }
{
    let given = r.given;
    if given < 0 {
        if -65536 < given {
            return (-given) as i32;
        }
    }
    0
}
