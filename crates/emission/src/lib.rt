// The code of a formula unit's functions, with their entries and references, and the rows that others see of it.
// A product has at most 384 code bytes and 32 references: what would pass them is not written.
#![tactic(auto)]

pub mod emit;
pub mod unit;
mod write;

pub use emit::Emitting;
