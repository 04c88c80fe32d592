// What the sections of an image must keep among one another.
ghost use Rattle.std.specs.Prelude.{◌≡◌, take};
ghost use Rattle.std.specs.List.{list_all};
ghost use Rattle.image.specs.Picture.{parts, among, different, placed, present, valid};

use crate::sections::Sections;
use crate::target::Target;
use codec::all_below;
use names::Name;

// Whether a name stands among the first so many.
fn stands_before(names: &[Name], i: usize, name: &Name) -> bool
    ensures { result ≡ among name.now (take i names.now) }
{
    names.iter().take(i).any(|other| other == name)
}

// Whether no name stands twice.
fn all_different(names: &[Name]) -> bool
    ensures { result ≡ different names.now }
{
    names
        .iter()
        .enumerate()
        .all(|(i, name)| !stands_before(names, i, name))
}

impl Sections {
    // Whether a target is there.
    fn has_entry(&self, t: Target) -> bool
        ensures { result ≡ present (parts self.now).entries t }
    {
        usize::from(t.entry) < self.entries.get(usize::from(t.unit)).len()
    }

    // Whether all targets are there.
    fn all_present(&self, targets: &[Target]) -> bool
        ensures { result ≡ list_all (present (parts self.now).entries) targets.now }
    {
        targets.iter().all(|t| self.has_entry(*t))
    }

    // Whether the references of all units go to entries that are there.
    fn all_meet(&self) -> bool
        ensures { result ≡ list_all (list_all (present (parts self.now).entries)) (parts self.now).references }
    {
        self.references
            .lists
            .as_slice()
            .iter()
            .all(|targets| self.all_present(targets.as_slice()))
    }

    // Whether the entries of all units stand in their code.
    fn all_placed(&self) -> bool
        ensures { result ≡ placed (parts self.now).codes (parts self.now).entries }
    {
        let codes = self.codes.lists.as_slice();
        let entries = self.entries.lists.as_slice();
        codes
            .iter()
            .zip(entries)
            .all(|(code, places)| all_below(places.as_slice(), code.len()))
    }

    // Whether names differ, entries stand in code, and references go to entries that are there.
    pub(crate) fn is_valid(&self) -> bool
        ensures { result ≡ valid (parts self.now) }
    {
        all_different(self.names.as_slice()) && self.all_placed() && self.all_meet()
    }
}
