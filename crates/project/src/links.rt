use bounded::Bounded;
use names::Name;
use order::Need;

// The link order of a project, and what finding it takes: the units' names and needs, and the units whose imports are all there.
#[derive(Drop)]
pub struct Links {
    pub(crate) names: Bounded<Name, 24>,
    pub(crate) needs: Bounded<Need<Name>, 96>,
    pub(crate) whole: Bounded<usize, 24>,
    pub(crate) places: Bounded<usize, 24>,
}
