// The instructions of formula code, read from bytes and shown one by one. What shows images and artifacts stands on it.
#![tactic(auto)]

pub mod instruction;
pub mod read;
pub mod show;

pub use instruction::Instruction;
pub use read::next;
