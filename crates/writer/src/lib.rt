// The circuit that a circuit memory holds, as text or in binary form: the public operation.
#![tactic(auto)]

ghost use Rattle.write.specs.Answer.{answered};
ghost use Rattle.writer.specs.Forms.{WrittenIn};

use write::WriteAnswer;

// The operation write: puts the circuit that m holds at the front of out, in form 0 as text, in form 1 in binary form.
pub fn write(m: &[u32], form: u64, out: &mut [u8]) -> WriteAnswer
    ensures { WrittenIn form m.now out.old (answered result) out.new }
{
    if 1 < form {
        return WriteAnswer::Refused(21);
    }
    if form == 0 {
        return write::write(m, out);
    }
    write_binary::write_binary(m, out)
}
