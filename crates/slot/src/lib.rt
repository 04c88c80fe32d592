// The slot store: each record lies in a slot of its own, at a multiple of the slot size in the caller's area.
// It keeps the contract of every store; the manager and the cache stand on it through that contract.
#![tactic(auto)]

pub mod keep;
pub mod opening;
pub mod search;
pub mod slots;

pub use slots::SlotStore;
