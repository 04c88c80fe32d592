// Instructions as a person reads them.
use crate::instruction::Instruction;
use std::fmt;

impl fmt::Display for Instruction {
    fn fmt<W: fmt::Write>(&self, f: &mut fmt::Formatter<W>) -> fmt::Result {
        match self {
            Instruction::Push(value) => write!(f, "push {value}"),
            Instruction::Argument => write!(f, "push x"),
            Instruction::Add => write!(f, "add"),
            Instruction::Subtract => write!(f, "subtract"),
            Instruction::Multiply => write!(f, "multiply"),
            Instruction::Divide => write!(f, "divide"),
            Instruction::Less => write!(f, "less"),
            Instruction::Equal => write!(f, "equal"),
            Instruction::Call(number) => write!(f, "call {number}"),
            Instruction::Return => write!(f, "return"),
        }
    }
}
