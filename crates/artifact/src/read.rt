// Reading of artifacts.
ghost use Rattle.std.specs.Prelude.{◌≡◌, OnOk, nat_le};
ghost use Rattle.std.specs.List.{list_all};
ghost use Rattle.bounded.specs.Held.{held, used};
ghost use Rattle.product.specs.Parts.{parts};
ghost use Rattle.names.specs.Refusals.{answer};
ghost use Rattle.codec.specs.Format.{left, filled, got, refusing};
ghost use Rattle.artifact.specs.Art.{art, artifact, imported, imports, product, entries, references, read, artifact_bytes, WithinArt};

use crate::artifact::Artifact;
use bounded::{Bounded, Pool};
use codec::{Count, Input, Malformed, all_below};
use names::Refusal;
use product::{Interface, Product, Reference};

// Whether each reference is to the unit itself or to one of so many imports.
fn all_known(references: &[Reference], imports: usize) -> bool
    ensures { result ≡ list_all (λ x. nat_le x.position imports) references.now }
{
    references
        .iter()
        .all(|x| usize::from(x.position) <= imports)
}

// Reads entries into code of so many bytes, in place of what is held.
fn read_entries(
    input: &mut Input<'_>,
    limit: usize,
    into: &mut Bounded<u16, 12>,
) -> Result<(), Malformed>
    ensures { filled result (held into.new) (left input.new) ≡ (entries limit).get (left input.old) }
{
    u8::read_section(input, into)?;
    Malformed::unless(all_below(into.as_slice(), limit))
}

// Reads references of a unit with so many imports, in place of what is held.
fn read_references(
    input: &mut Input<'_>,
    imports: usize,
    into: &mut Bounded<Reference, 32>,
) -> Result<(), Malformed>
    ensures { filled result (held into.new) (left input.new) ≡ (references imports).get (left input.old) }
{
    u8::read_section(input, into)?;
    Malformed::unless(all_known(into.as_slice(), imports))
}

// Reads a product of a unit with so many imports, in place of what is held.
fn read_product(input: &mut Input<'_>, imports: usize, into: &mut Product) -> Result<(), Malformed>
    ensures { filled result (parts into.new) (left input.new) ≡ (product imports).get (left input.old) }
{
    u8::read_section(input, &mut into.interface.list)?;
    u16::read_section(input, &mut into.code)?;
    read_entries(input, into.code.len(), &mut into.entries)?;
    read_references(input, imports, &mut into.references)
}

// Reads interfaces, in place of those that are held; each is filled in the one beside them first.
fn read_imports(
    input: &mut Input<'_>,
    into: &mut Pool<Interface, 4>,
    next: &mut Interface,
) -> Result<(), Malformed>
    ensures { filled result (imported (used into.new)) (left input.new) ≡ imports.get (left input.old) }
{
    into.clear();
    let count = u8::read_count(input)?;
    Malformed::unless(count <= 4)?;
    for _ in 0..count {
        u8::read_section(input, &mut next.list)?;
        into.add(next)?;
    }
    Ok(())
}

impl Artifact {
    // Reads the parts, in place of what is held.
    fn read_parts(&mut self, input: &mut Input<'_>) -> Result<(), Malformed>
        ensures { filled result (art self.new) (left input.new) ≡ artifact.get (left input.old) }
    {
        u16::read_section(input, &mut self.source)?;
        read_imports(input, &mut self.imports, &mut self.next)?;
        read_product(input, self.imports.len(), &mut self.product)
    }

    // Reads the artifact that the bytes are, in place of what is held.
    fn read_whole(&mut self, bytes: &[u8]) -> Result<(), Malformed>
        ensures { got result (art self.new) ≡ read bytes.now }
    {
        let mut input = Input { rest: bytes };
        self.read_parts(&mut input)?;
        input.end()
    }

    // Reads the artifact that the bytes are, in place of what is held; where they are none, what is held then is any artifact.
    pub fn read(&mut self, bytes: &[u8]) -> Result<(), Refusal>
        ensures parts { got result (art self.new) ≡ read bytes.now }
        ensures back { OnOk result ((artifact_bytes (art self.new) ≡ bytes.now) × WithinArt (art self.new)) }
        ensures number { answer result ≡ refusing 55 (read bytes.now) }
    {
        self.read_whole(bytes).map_err(|_| Refusal::NotAnArtifact)
    }
}
