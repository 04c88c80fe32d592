// What became of a unit in a build.
ghost use Rattle.std.specs.Prelude.{◌≡◌};
ghost use Rattle.building.specs.Step.{mark_number};

#[derive(Clone, Copy, Debug, PartialEq, Eq)]
pub enum Mark {
    // its artifact was current
    Kept = 0,
    // translated, and its artifact stored
    Translated = 1,
    // translated, and the build ended there
    Failed = 2,
    // the build did not come to it, or there is no such unit
    NotReached = 3,
}

impl Mark {
    // 0 kept, 1 translated and stored, 2 translated and the end of the build, 3 not reached.
    pub fn number(&self) -> u8
        ensures { result ≡ mark_number self.now }
    {
        // the discriminant, which no `From` gives
        *self as u8
    }
}
