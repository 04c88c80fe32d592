// A target as an element of a section.
ghost use Rattle.image.specs.Picture.{target};

use crate::target::Target;
use codec::{Field, Input, Malformed, Sink};

impl Field for Target {
    ghost format = { target };

    fn read(input: &mut Input<'_>) -> Result<Target, Malformed> {
        let unit = u8::read(input)?;
        let entry = u8::read(input)?;
        Ok(Target { unit, entry })
    }

    fn append<S: Sink>(&self, out: &mut S) {
        self.unit.append(out);
        self.entry.append(out);
    }
}
