// Why a unit has no product.
ghost use Rattle.std.specs.Prelude.{◌≡◌};
ghost use Rattle.building.specs.declared.stop.Stop.TheVariants.{Faulty, Unstored};

use names::{Fault, Refusal};

#[derive(Clone, Copy, Debug, PartialEq, Eq)]
pub enum Stop {
    // its source has a fault
    Faulty(Fault),
    // the store refused its artifact
    Unstored(Refusal),
}

impl From<Fault> for Stop {
    ghost from_gives = { λ fault s. s ≡ Faulty fault };

    fn from(fault: Fault) -> Stop {
        Stop::Faulty(fault)
    }
}

impl From<Refusal> for Stop {
    ghost from_gives = { λ refusal s. s ≡ Unstored refusal };

    fn from(refusal: Refusal) -> Stop {
        Stop::Unstored(refusal)
    }
}
