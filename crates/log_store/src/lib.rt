// The log store: records lie one behind the other in the caller's area; the live ones slide to the front when a new one does not fit.
// It keeps the contract of every store, and says where each record lies.
#![tactic(auto)]

pub mod keep;
pub mod logs;
pub mod opening;
pub mod records;
pub mod scan;
pub mod slide;
pub mod steps;

pub use logs::LogStore;
pub use records::Records;
