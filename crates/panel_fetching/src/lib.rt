// The files that a request of the resident program names, read. The fields are this crate's own, so that a value of this type says what was
// read.
#![tactic(auto)]

ghost use Rattle.std.specs.Prelude.{◌≡◌, false, ◌||◌, take};
ghost use Rattle.input.specs.Reading.{is_failure};
ghost use Rattle.input.specs.Contents.{Whole, nothing};
ghost use Rattle.files.specs.Reading.{name_of};
ghost use Rattle.panel_lines.specs.Reading.{Inside, bytes_of};
ghost use Rattle.panel_fetching.specs.Fetching.{Fetches};

use files::NamedFile;
use panel_lines::Part;
use panel_names::Names;

// The files of a request: by which name each was read and what was read of it, and whether one could not be read.
#[derive(Clone, Copy)]
pub struct Fetched {
    old: NamedFile,
    new: NamedFile,
    failed: bool,
}

// Reads the file whose name is a part of a request.
fn read_part(rt: HostRuntime, request: &[u8], name: Part) -> NamedFile
    requires { Inside request.now name }
    ensures { (name_of result ≡ take 4096 (bytes_of request.now name)) × Whole result.content }
{
    let from = name.from;
    let to = name.to;
    files::read_file(rt, &request[from..to])
}

// No file was read.
pub fn none() -> Fetched
    ensures { (result.old.content ≡ nothing) × (result.new.content ≡ nothing) × (result.failed ≡ false) }
{
    let old = files::no_file();
    let new = files::no_file();
    Fetched {
        old,
        new,
        failed: false,
    }
}

// One file was read.
fn one(old: NamedFile) -> Fetched
    ensures { (result.old ≡ old) × (result.new.content ≡ nothing) × (result.failed ≡ is_failure old.content.last.given) }
{
    let new = files::no_file();
    let failed = input::is_failed(files::content_of(old));
    Fetched { old, new, failed }
}

// Two files were read.
fn two(old: NamedFile, new: NamedFile) -> Fetched
    ensures { (result.old ≡ old) × (result.new ≡ new)
        × (result.failed ≡ (is_failure old.content.last.given || is_failure new.content.last.given)) }
{
    let from = input::is_failed(files::content_of(old));
    let to = input::is_failed(files::content_of(new));
    Fetched {
        old,
        new,
        failed: from | to,
    }
}

// Reads the files that a request names.
pub fn fetch(rt: HostRuntime, request: &[u8]) -> Fetched
    ensures { Fetches request.now result }
{
    match panel_names::files_of(request) {
        Names::Zero => none(),
        Names::One(name) => one(read_part(rt, request, name)),
        Names::Two(old, new) => {
            let from = read_part(rt, request, old);
            two(from, read_part(rt, request, new))
        }
    }
}

// The file of one, or the first of two.
pub fn first_of(f: Fetched) -> NamedFile
    ensures { result ≡ f.old }
{
    f.old
}

// The second file of two.
pub fn second_of(f: Fetched) -> NamedFile
    ensures { result ≡ f.new }
{
    f.new
}

pub fn has_failed(f: Fetched) -> bool
    ensures { result ≡ f.failed }
{
    f.failed
}
