// The sections of an AIGER file after its header, in text form and in binary form, read into words as circuit memory has them.
#![tactic(auto)]

ghost use Rattle.std.specs.Prelude.{◌≡◌, true, false, ◌+◌, ◌*◌, ◌≤◌, ◌<◌, length, drop};
ghost use Rattle.std.proofs.Math.Seq.{slice};
ghost use Rattle.layout.specs.Words.{word, content_end};
ghost use Rattle.layout.specs.Layout.{PlacesOf};
ghost use Rattle.layout.specs.Table.{table, section_at, Chained};
ghost use Rattle.sections.specs.Sections.{header_at, BodyAt, PastKept, WordsLeft};
ghost use Rattle.sections.specs.Spans.{section_end, SectionAt, SpanAt};

use layout::Layout;
use lines::{Form, Rows};

// The sections of a file: read and stored, with every number in their lines within the limit; read, with one above it; a line or the tail
// malformed; or a gate of the binary form damaged.
#[derive(Clone, Copy)]
pub enum Body {
    Read,
    Large,
    Malformed,
    Damaged,
}

// Reads the lines of section k of the table, and stores their numbers where it begins. A call with constants for each form of a line: the
// compiler then makes a loop for that form alone.
fn read_section(
    s: &[u8],
    at: usize,
    p: Layout,
    k: usize,
    limit: u32,
    words: &mut [u32],
) -> Option<Rows>
    requires at_in_bounds { at ≤ length s.now }
    requires k_bound { k < 6 }
    requires k_in_bounds { section_end (section_at p k) ≤ length words.old }
    ensures { SectionAt s.now at (section_at p k) limit words.old words.new result }
{
    let t = layout::section_at(p, k);
    let least = t.least;
    match least {
        1 => {
            let form = Form {
                least: 1,
                most: 1,
                limit,
            };
            lines::read_rows(s, at, t.rows, form, words, t.at)
        }
        2 => {
            let form = Form {
                least: 2,
                most: 3,
                limit,
            };
            lines::read_rows(s, at, t.rows, form, words, t.at)
        }
        _ => {
            let form = Form {
                least: 3,
                most: 3,
                limit,
            };
            lines::read_rows(s, at, t.rows, form, words, t.at)
        }
    }
}

// Reads the lines of the sections of the table from section first up to section end, one after the other, and stores their numbers.
fn read_span(
    s: &[u8],
    at: usize,
    p: Layout,
    first: usize,
    end: usize,
    limit: u32,
    words: &mut [u32],
) -> Option<Rows>
    requires at_in_bounds { at ≤ length s.now }
    requires first_le_end { (first ≤ end) × (end ≤ 6) }
    requires chained { Chained (table p) 7 p.end × (p.end ≤ length words.old) }
    ensures { SpanAt s.now at (slice first end (table p)) limit words.old words.new result }
{
    let mut next = at;
    let mut fits = true;
    for k in first..end {
        let read = read_section(s, next, p, k, limit, words)?;
        next = read.next;
        fits = fits & read.fits;
    }
    Some(Rows { next, fits })
}

// Reads the lines after a header in text form, section after section, and stores their numbers after the counts, which words has.
fn read_text(s: &[u8], at: usize, p: Layout, limit: u32, words: &mut [u32]) -> Body
    requires at_in_bounds { at ≤ length s.now }
    requires places_of { PlacesOf words.old p }
    requires words_in_bounds { content_end words.old ≤ length words.old }
    requires limit_value { limit ≡ 2 * word words.old 0 + 1 }
    ensures { BodyAt false (header_at words.old) (drop at s.now) words.new result
        × PastKept words.old words.new result }
{
    let Some(lines) = read_span(s, at, p, 0, 6, limit, words) else {
        return Body::Malformed;
    };
    if !lines::is_tail(s, lines.next) {
        return Body::Malformed;
    }
    if lines.fits {
        return Body::Read;
    }
    Body::Large
}

// A count that is a variable number.
fn variable(n: usize) -> u32
    requires { n ≤ 5000 }
    ensures { result ≡ n }
{
    n as u32
}

// Reads what follows a header in binary form, section after section, and stores it after the counts, which words has.
fn read_binary(s: &[u8], at: usize, p: Layout, limit: u32, words: &mut [u32]) -> Body
    requires at_in_bounds { at ≤ length s.now }
    requires places_of { PlacesOf words.old p }
    requires words_in_bounds { content_end words.old ≤ length words.old }
    requires limit_value { limit ≡ 2 * word words.old 0 + 1 }
    requires a_bound { (p.i + p.l + p.a ≤ 4096) × (p.o + p.b + p.c ≤ 96) }
    ensures { BodyAt true (header_at words.old) (drop at s.now) words.new result
        × PastKept words.old words.new result }
{
    let i = layout::section_at(p, 0);
    binary::store_implied(words, i.at, 1, i.rows);
    let l = layout::section_at(p, 1);
    let latch = variable(p.i + 1);
    let Some(latches) = binary::read_latches(s, at, l.rows, latch, limit, words, l.at) else {
        return Body::Malformed;
    };
    let Some(lines) = read_span(s, latches.next, p, 2, 5, limit, words) else {
        return Body::Malformed;
    };
    let g = layout::section_at(p, 5);
    let gate = variable(p.i + p.l + 1);
    let Some(end) = binary::read_gates(s, lines.next, g.rows, gate, words, g.at) else {
        return Body::Damaged;
    };
    if !lines::is_tail(s, end) {
        return Body::Malformed;
    }
    if latches.fits & lines.fits {
        return Body::Read;
    }
    Body::Large
}

// Reads the sections after a header, in binary or text form, and stores their numbers after the counts, which words has.
fn read_body(s: &[u8], at: usize, binary: bool, p: Layout, limit: u32, words: &mut [u32]) -> Body
    requires at_in_bounds { at ≤ length s.now }
    requires places_of { PlacesOf words.old p }
    requires words_in_bounds { content_end words.old ≤ length words.old }
    requires limit_value { limit ≡ 2 * word words.old 0 + 1 }
    requires a_bound { (p.i + p.l + p.a ≤ 4096) × (p.o + p.b + p.c ≤ 96) }
    ensures { BodyAt binary (header_at words.old) (drop at s.now) words.new result
        × PastKept words.old words.new result }
{
    if binary {
        return read_binary(s, at, p, limit, words);
    }
    read_text(s, at, p, limit, words)
}

// Reads the sections after a header, in binary or text form, and stores their numbers after the counts, which words has. Where it does
// not answer Read, it leaves 0 in all words.
pub fn read_sections(
    s: &[u8],
    at: usize,
    binary: bool,
    p: Layout,
    limit: u32,
    words: &mut [u32],
) -> Body
    requires at_in_bounds { at ≤ length s.now }
    requires places_of { PlacesOf words.old p }
    requires words_in_bounds { content_end words.old ≤ length words.old }
    requires limit_value { limit ≡ 2 * word words.old 0 + 1 }
    requires a_bound { (p.i + p.l + p.a ≤ 4096) × (p.o + p.b + p.c ≤ 96) }
    ensures { BodyAt binary (header_at words.old) (drop at s.now) words.new result
        × WordsLeft words.old words.new result }
{
    match read_body(s, at, binary, p, limit, words) {
        Body::Read => Body::Read,
        Body::Large => {
            variables::clear(words);
            Body::Large
        }
        Body::Malformed => {
            variables::clear(words);
            Body::Malformed
        }
        Body::Damaged => {
            variables::clear(words);
            Body::Damaged
        }
    }
}
