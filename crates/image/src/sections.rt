use crate::column::Column;
use crate::target::Target;
use bounded::Bounded;
use names::Name;

// What the sections of an image hold, each by itself.
// Kept as columns: the format has a section for each part, and one reader and one writer serve entries and references.
#[derive(Drop)]
pub struct Sections {
    pub(crate) names: Bounded<Name, 24>,
    pub(crate) codes: Column<u8, 384>,
    pub(crate) entries: Column<u16, 12>,
    pub(crate) references: Column<Target, 32>,
}
