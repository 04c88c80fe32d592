use bounded::Bounded;
use image::Target;
use names::Name;

// A reference whose entry is missing in its target: the unit that makes it, and its number there.
#[derive(Clone, Copy, Debug, PartialEq, Eq)]
pub struct Missing {
    pub unit: Name,
    pub reference: u8,
}

// What putting units together takes: the names of all in link order, and the targets of the one at hand.
#[derive(Drop)]
pub struct Assembler {
    pub(crate) names: Bounded<Name, 24>,
    pub(crate) targets: Bounded<Target, 32>,
}
