// What users share, when a circuit is replaced.
ghost use Rattle.std.specs.Prelude.{◌≡◌};
ghost use Rattle.load.specs.Answers.{answered};
ghost use Rattle.call_forms.specs.Forms.{free_byte, freed, shared_after};

use load::LoadAnswer;

// Byte i: a free pin, or 0 after the pins of both users.
fn free_byte(i: usize) -> u8
    ensures { result ≡ free_byte i }
{
    if i < 512 {
        return 2;
    }
    0
}

// Frees all pins, and clears the bytes after them.
fn free(shared: &mut [u8])
    ensures { shared.new ≡ freed shared.old }
{
    let mut i: usize = 0;
    while i < shared.len() {
        shared[i] = free_byte(i);
        i += 1;
    }
}

// Frees them where a load or a join was accepted.
pub fn free_where_accepted(shared: &mut [u8], answer: LoadAnswer)
    ensures { shared.new ≡ shared_after (answered answer) shared.old }
{
    if let LoadAnswer::Loaded(_) = answer {
        free(shared);
    }
}
