// Memory for one unit of a build: two artifacts, and what reading, writing and translating take.
use artifact::Artifact;
use bounded::Bounded;
use product::Product;

#[derive(Drop)]
pub struct Desk {
    // what the unit would be stored as
    pub fresh: Artifact,
    // what is stored
    pub kept: Artifact,
    pub(crate) scratch: Product,
    pub(crate) record: Bounded<u8, 1896>,
    // kept as an array: a store's get writes into a buffer of a fixed size, and `recorded` answers the part that it wrote
    pub(crate) buffer: [u8; 1896],
}

// Why nothing is kept for a unit.
#[derive(Clone, Copy, Debug, PartialEq, Eq)]
pub enum Stale {
    // no artifact is stored under its name
    Absent,
    // its source is another since, or an interface of its imports
    Changed,
}
