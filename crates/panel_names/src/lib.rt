// Which files a request of the resident program names.
#![tactic(auto)]

ghost use Rattle.std.specs.Prelude.{◌≡◌};
ghost use Rattle.panel_lines.specs.Grammar.{parse};
ghost use Rattle.panel_names.specs.Naming.{named_by, names_of, NamesInside};

use panel_lines::{Part, Task};

// The names of files in a request.
#[derive(Clone, Copy)]
pub enum Names {
    Zero,
    One(Part),
    Two(Part, Part),
}

// Which files a request names.
pub fn files_of(request: &[u8]) -> Names
    ensures { (names_of request.now result ≡ named_by (parse request.now)) × NamesInside request.now result }
{
    let Some(asked) = panel_lines::read_request(request) else {
        return Names::Zero;
    };
    let task = asked.task;
    match task {
        Task::Ask(_) => Names::Zero,
        Task::Load(file) => Names::One(file),
        Task::Preview(file) => Names::One(file),
        Task::Join(old, new) => Names::Two(old, new),
        Task::Witness(_, file) => Names::One(file),
    }
}
