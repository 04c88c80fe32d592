// The formula translator: lines, names, uses, order, values and code, one phase after the other; the first fault decides.
// It implements the translator's trait with all its laws. Two interfaces are the same to it by the house sameness.
#![tactic(auto)]

pub mod formula;
mod phases;

pub use formula::Formula;
