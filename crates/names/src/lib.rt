// Names of units and declarations, and the refusals that every call of the build manager may give.
#![tactic(auto)]

pub mod name;
pub mod refusal;
pub mod show;
pub mod spell;

pub use name::Name;
pub use refusal::{Fault, Refusal};
