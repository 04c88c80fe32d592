// Reading of instructions.
ghost use Rattle.std.specs.Prelude.{◌≡◌};
ghost use Rattle.codec.specs.Format.{left, read_as};
ghost use Rattle.mnemonics.specs.Code.{instruction};

use crate::instruction::Instruction;
use codec::{Field, Input, Malformed};

// The instruction that stands first in what is left.
pub fn next(input: &mut Input<'_>) -> Result<Instruction, Malformed>
    ensures { read_as result (left input.new) ≡ instruction (left input.old) }
{
    // bare bytes: opcodes are of the format, and their names are those of `Instruction`
    match u8::read(input)? {
        0x01 => Ok(Instruction::Push(i32::read(input)?)),
        0x02 => Ok(Instruction::Argument),
        0x10 => Ok(Instruction::Add),
        0x11 => Ok(Instruction::Subtract),
        0x12 => Ok(Instruction::Multiply),
        0x13 => Ok(Instruction::Divide),
        0x14 => Ok(Instruction::Less),
        0x15 => Ok(Instruction::Equal),
        0x30 => Ok(Instruction::Call(u8::read(input)?)),
        0x3F => Ok(Instruction::Return),
        _ => Err(Malformed),
    }
}
