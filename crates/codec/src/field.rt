// An element of a section.
ghost use Rattle.std.specs.Prelude.{◌≡◌};
ghost use Rattle.codec.specs.Format.{Format, left, read_as};

use crate::input::Input;
use crate::malformed::Malformed;
use crate::sink::Sink;

pub trait Field: Sized {
    // how the element stands in bytes
    ghost format: { Format Self };

    // The element that stands first in what is left.
    fn read(input: &mut Input<'_>) -> Result<Self, Malformed>
        ensures { read_as result (left input.new) ≡ format.get (left input.old) };

    // Puts the element's bytes, where they have room.
    fn append<S: Sink>(&self, out: &mut S)
        ensures { S.Takes out.old (format.put self.now) out.new };
}
