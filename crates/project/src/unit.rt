// A unit: its name, 0 to 4 names that it imports, and a source of at most 512 bytes.
ghost use Rattle.std.specs.Prelude.{◌≡◌, [], ◌∷◌, length, IfOk, OnOk, if◌then◌else◌, nat_lt};
ghost use Rattle.names.specs.Refusals.{answer};
ghost use Rattle.project.specs.Members.{member};

use bounded::Bounded;
use names::{Name, Refusal};
use std::alloc::{AllocError, Global};

#[derive(Drop)]
pub struct Unit {
    pub(crate) name: Name,
    pub(crate) imports: Bounded<Name, 4>,
    pub(crate) source: Bounded<u8, 512>,
}

impl Unit {
    // Memory for a unit: with the smallest name, no imports and an empty source.
    pub(crate) fn open(heap: Global) -> Result<Unit, AllocError>
        ensures name { IfOk result (λ u. (member u).name.bytes ≡ 97 ∷ 0 ∷ 0 ∷ 0 ∷ 0 ∷ 0 ∷ 0 ∷ 0 ∷ []) }
        ensures imports { IfOk result (λ u. (member u).imports ≡ []) }
        ensures source { IfOk result (λ u. (member u).source ≡ []) }
    {
        let imports = Bounded::open(heap)?;
        let source = Bounded::open(heap)?;
        Ok(Unit {
            name: Name::least(),
            imports,
            source,
        })
    }

    // The unit becomes one of this name, with these imports and this source, unless the source is too long (12) or there are too many imports (13).
    pub(crate) fn fill(
        &mut self,
        name: Name,
        imports: &[Name],
        source: &[u8],
    ) -> Result<(), Refusal>
        ensures answers { answer result ≡ (if nat_lt 512 (length source.now) then 12 else (if nat_lt 4 (length imports.now) then 13 else 0)) }
        ensures filled { OnOk result (member self.new ≡ record { name = name; imports = imports.now; source = source.now }) }
    {
        self.name = name;
        self.imports.clear();
        self.source.clear();
        self.source
            .extend(source)
            .map_err(|_| Refusal::SourceTooLong)?;
        self.imports
            .extend(imports)
            .map_err(|_| Refusal::TooManyImports)
    }

    // Its name.
    pub fn name(&self) -> Name
        ensures { result ≡ (member self.now).name }
    {
        self.name
    }

    // The names that it imports.
    pub fn imports(&self) -> &[Name]
        ensures { result.now ≡ (member self.now).imports }
    {
        self.imports.as_slice()
    }

    // Its source.
    pub fn source(&self) -> &[u8]
        ensures { result.now ≡ (member self.now).source }
    {
        self.source.as_slice()
    }
}
