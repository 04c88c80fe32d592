// How records lie in a piece of memory that a store works in, and the reading and writing of one record there.
// The slot store and the log store stand on it.
#![tactic(auto)]

pub mod layout;
pub mod record_at;
