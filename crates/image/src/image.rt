// The linked units in link order, at most 24: sections that have a list for each name.
ghost use Rattle.std.specs.Prelude.{◌≡◌, length};
ghost use Rattle.bounded.specs.Held.{held, used};

use crate::sections::Sections;

#[derive(Drop)]
pub struct Image {
    pub(crate) sections: Sections,
    ghost coded: { length (used sections.codes.lists) ≡ length (held sections.names) },
    ghost entered: { length (used sections.entries.lists) ≡ length (held sections.names) },
    ghost referred: { length (used sections.references.lists) ≡ length (held sections.names) },
}
