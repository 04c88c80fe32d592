// A cache over any store: it holds copies of the last four records put or got, and is itself a store with the pairs, rows and limit of the one below.
#![tactic(auto)]

pub mod copies;
pub mod keep;
pub mod memory;
pub mod over;

pub use over::Cache;
