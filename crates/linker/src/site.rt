ghost use Rattle.std.specs.Prelude.{◌<◌, ◌≤◌, length};

use names::Name;

// One of the units in link order: the names of all, its place among them, and the names that it imports.
#[derive(Clone, Copy)]
pub(crate) struct Site<'a> {
    pub(crate) names: &'a [Name],
    pub(crate) place: usize,
    pub(crate) imports: &'a [Name],
    ghost few: { length names.now ≤ 24 },
    ghost below: { place < 24 },
}
