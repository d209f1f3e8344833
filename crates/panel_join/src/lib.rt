// The work of the resident program's command join: two files to the joined circuit in the shared memory.
#![tactic(auto)]

ghost use Rattle.std.specs.Prelude.{◌≤◌, length};
ghost use Rattle.call_forms.specs.Forms.{UserJoined};
ghost use Rattle.panel_join.specs.Joins.{NewJoined, FilesJoined, JoinReported};

use load::LoadAnswer;
use replies::Report;

// Joins the circuits in first and second for user 0.
fn join_loaded(
    first: &[u32],
    second: &[u32],
    m: &mut [u32],
    pins: &mut [u8],
    line: &mut [u8],
) -> Report
    requires { 128 ≤ length line.old }
    ensures { JoinReported
        (λ a. UserJoined first.now second.now m.old pins.old 0 a m.new
        pins.new)
        line.old result line.new }
{
    let answer = calls::join(0, pins, m, first, second);
    let length = preview_command::write_answer(line, answer);
    Report {
        line: length,
        out: 0,
    }
}

// Loads the new file, and joins its circuit with that in first.
fn join_new(new: &[u8], first: &[u32], m: &mut [u32], pins: &mut [u8], line: &mut [u8]) -> Report
    requires { 128 ≤ length line.old }
    ensures { JoinReported (λ a. NewJoined first.now new.now m.old pins.old a m.new
        pins.new)
        line.old result line.new }
{
    let mut second = [0u32; 33032];
    match load::load(new, &mut second) {
        LoadAnswer::Refused(n) => replies::refuse(line, n),
        LoadAnswer::Loaded(_) => join_loaded(first, &second, m, pins, line),
    }
}

// Joins the circuits of two files. The old one is loaded, by the user who may, to a memory that is not shared.
pub fn join(
    user: u64,
    old: &[u8],
    new: &[u8],
    m: &mut [u32],
    pins: &mut [u8],
    line: &mut [u8],
) -> Report
    requires { 128 ≤ length line.old }
    ensures { JoinReported
        (λ a. FilesJoined old.now new.now m.old pins.old user a m.new
        pins.new)
        line.old result line.new }
{
    let mut first = [0u32; 33032];
    let mut unshared = [2u8; 1];
    match calls::load(user, &mut unshared, &mut first, old) {
        LoadAnswer::Refused(n) => replies::refuse(line, n),
        LoadAnswer::Loaded(_) => join_new(new, &first, m, pins, line),
    }
}
