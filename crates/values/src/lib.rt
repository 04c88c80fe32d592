// The values of a formula unit's constants, in dependency order: a circle is told by the smallest line left, a value that does
// not fit in 32 bits or a zero divisor by the constant's line. The code of functions stands on it.
#![tactic(auto)]

pub mod arithmetic;
pub mod evaluation;
pub mod known;
mod needed;
pub mod solver;

pub use arithmetic::operate;
pub use evaluation::{Evaluating, known_value};
pub use known::Known;
pub use solver::Solver;
