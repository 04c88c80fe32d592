// Writing of artifacts.
ghost use Rattle.std.specs.Prelude.{◌≡◌, Some};
ghost use Rattle.bounded.specs.Held.{held};
ghost use Rattle.product.specs.Parts.{parts};
ghost use Rattle.codec.specs.Format.{each, interface};
ghost use Rattle.artifact.specs.Art.{art, imported, product, artifact_bytes, read, WithinArt};
ghost use Rattle.artifact.specs.Round.{RoundTrip};

use crate::artifact::Artifact;
use bounded::Bounded;
use codec::{Count, Sink};
use product::{Interface, Product};

// The longest artifact has 1,896 bytes; and what holds of reading and writing.
pub fn longest() -> usize
    ensures { (result ≡ 1896) × RoundTrip }
{
    2 + 512 + 1 + 4 * (1 + 12 * 15) + 1 + 12 * 15 + 2 + 384 + 1 + 12 * 2 + 1 + 32 * 2
}

// Puts interfaces, one behind the other, where they have room.
fn append_imports<S: Sink>(imports: &[Interface], out: &mut S)
    ensures { S.Takes out.old (each interface.put (imported imports.now)) out.new }
{
    for interface in imports {
        u8::append_section(&interface.list, out);
    }
}

// Puts a product, where it has room.
fn append_product<S: Sink>(from: &Product, out: &mut S)
    ensures { S.Takes out.old ((product 0).put (parts from.now)) out.new }
{
    u8::append_section(&from.interface.list, out);
    u16::append_section(&from.code, out);
    u8::append_section(&from.entries, out);
    u8::append_section(&from.references, out);
}

impl Artifact {
    // Puts the parts, where they have room.
    fn append_parts<S: Sink>(&self, out: &mut S)
        ensures { S.Takes out.old (artifact_bytes (art self.now)) out.new }
    {
        u16::append_section(&self.source, out);
        u8::append_count(self.imports.len(), out);
        append_imports(self.imports(), out);
        append_product(&self.product, out);
    }

    // The bytes of the artifact, in place of what is held; where the artifact is within its limits, they read back to it.
    pub fn write(&self, out: &mut Bounded<u8, 1896>)
        ensures bytes { held out.new ≡ artifact_bytes (art self.now) }
        ensures back { WithinArt (art self.now) → read (held out.new) ≡ Some (art self.now) }
    {
        out.clear();
        self.append_parts(out);
    }
}
