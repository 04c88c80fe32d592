// Linking: the products of a build put together as an image, each reference resolved by the present imports of its unit.
#![tactic(auto)]

pub mod assembler;
pub mod assembly;
pub mod resolution;
pub mod site;

pub use assembler::{Assembler, Missing};
