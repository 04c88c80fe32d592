// What a store is: pairs of name and record, a number of rows and a record limit, and the law that every store keeps over whole runs.
#![tactic(auto)]

pub mod buffer;
pub mod call;
pub mod contract;
pub mod runs;

pub use buffer::copy_out;
pub use call::{Answer, Call};
pub use contract::Store;
pub use runs::{act, ask, run};
