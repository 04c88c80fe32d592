// Writing of images.
ghost use Rattle.std.specs.Prelude.{◌≡◌, length, if◌then◌else◌, nat_le};
ghost use Rattle.names.specs.Refusals.{answer};
ghost use Rattle.image.specs.Laid.{Wrote};
ghost use Rattle.image.specs.Picture.{parts, units, image_bytes};
ghost use Rattle.image.specs.Round.{ReadsBack, RoundTrip};

use crate::image::Image;
use crate::sections::Sections;
use codec::{Buffer, Count, Sink};
use names::Refusal;

// The longest image has at most 12,630 bytes; and what holds of reading and writing.
pub fn longest() -> usize
    ensures { (result ≡ 12630) × RoundTrip }
{
    1 + 24 * 8 + 1 + 24 * (2 + 384) + 2 + 24 * 12 * 3 + 2 + 24 * 32 * 3
}

impl Sections {
    // Puts the sections, where they have room.
    fn append_sections<S: Sink>(&self, out: &mut S)
        ensures { S.Sink.Takes out.old (image_bytes (parts self.now)) out.new }
    {
        u8::append_section(&self.names, out);
        self.codes.append_exactly(out);
        self.entries.append_dealt(out);
        self.references.append_dealt(out);
    }
}

impl Image {
    // How many bytes the image has.
    pub fn size(&self) -> usize
        ensures { result ≡ length (image_bytes (units self.now)) }
    {
        let count = self.sections.names.len();
        6 + 10 * count
            + self.sections.codes.total()
            + 3 * self.sections.entries.total()
            + 3 * self.sections.references.total()
    }

    // Writes the image to the start of a buffer and answers its length; bytes behind stay.
    // Refused, with nothing changed, where the buffer is shorter. Where the image is within its limits, what was written reads back to it.
    pub fn write(&self, buffer: &mut [u8]) -> Result<usize, Refusal>
        ensures number { answer result ≡ (if nat_le (length (image_bytes (units self.now))) (length buffer.old) then 0 else 52) }
        ensures written { Wrote result (image_bytes (units self.now)) buffer.old buffer.new }
        ensures back { ReadsBack result (units self.now) buffer.new }
    {
        if self.size() > buffer.len() {
            return Err(Refusal::ImageTooLong);
        }
        let mut out = Buffer {
            bytes: buffer,
            at: 0,
        };
        self.sections.append_sections(&mut out);
        Ok(out.at)
    }
}
