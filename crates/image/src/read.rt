// Reading of images.
ghost use Rattle.std.specs.Prelude.{◌≡◌, OnOk};
ghost use Rattle.names.specs.Refusals.{answer};
ghost use Rattle.codec.specs.Format.{left, filled, got, refusing};
ghost use Rattle.image.specs.Picture.{parts, units, sections, image, read, image_bytes, WithinUnits};

use crate::image::Image;
use crate::sections::Sections;
use codec::{Count, Input, Malformed};
use names::Refusal;

impl Sections {
    // Reads the sections, in place of what is held.
    fn read_sections(&mut self, input: &mut Input<'_>) -> Result<(), Malformed>
        ensures { filled result (parts self.new) (left input.new) ≡ sections.get (left input.old) }
    {
        u8::read_section(input, &mut self.names)?;
        // kept as a cast: at most 24 names stand, and no `From` leads from a `usize` to a `u8`
        let count = self.names.len() as u8;
        self.codes.read_exactly(input, count)?;
        self.entries.read_dealt(input, count)?;
        self.references.read_dealt(input, count)
    }

    // Reads valid sections, in place of what is held.
    fn read_valid(&mut self, input: &mut Input<'_>) -> Result<(), Malformed>
        ensures { filled result (parts self.new) (left input.new) ≡ image.get (left input.old) }
    {
        self.read_sections(input)?;
        Malformed::unless(self.is_valid())
    }

    // Reads the valid sections that the bytes are, in place of what is held.
    fn read_whole(&mut self, bytes: &[u8]) -> Result<(), Malformed>
        ensures { got result (parts self.new) ≡ read bytes.now }
    {
        let mut input = Input { rest: bytes };
        self.read_valid(&mut input)?;
        input.end()
    }
}

impl Image {
    // Reads the image that the bytes are, in place of what is held; where they are none, what is held then is open.
    pub fn read(&mut self, bytes: &[u8]) -> Result<(), Refusal>
        ensures parts { got result (units self.new) ≡ read bytes.now }
        ensures back { OnOk result ((image_bytes (units self.new) ≡ bytes.now) × WithinUnits (units self.new)) }
        ensures number { answer result ≡ refusing 54 (read bytes.now) }
    {
        // kept as a match: a `map_err` whose closure empties the sections is no plainer
        match self.sections.read_whole(bytes) {
            Ok(()) => Ok(()),
            Err(Malformed) => {
                self.sections.clear();
                Err(Refusal::NotAnImage)
            }
        }
    }
}
