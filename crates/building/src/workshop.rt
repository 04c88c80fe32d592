use crate::desk::Desk;
use crate::mark::Mark;
use crate::stop::Stop;
use crate::table::Done;
use bounded::Bounded;
use names::Name;

// What a build goes through: a desk for the unit at hand, the units that have their product, and what became of each.
// A build is lent the translator and the store, which are of any types and stay its caller's.
// kept as two parameters: a struct that lends both would have each clause speak of what it borrows in place of `translator` and `store`, and each of the six functions hands both on
#[derive(Drop)]
pub struct Workshop {
    pub(crate) desk: Desk,
    pub(crate) done: Done,
    pub(crate) marks: Bounded<Mark, 24>,
}

// Where a build ended, and why.
#[derive(Clone, Copy, Debug, PartialEq, Eq)]
pub struct Halt {
    pub unit: Name,
    pub stop: Stop,
}
