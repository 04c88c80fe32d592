// An artifact is opened once, then emptied and filled in place.
ghost use Rattle.std.specs.Prelude.{◌≡◌, length, is_ok, IfOk, if◌then◌else◌, nat_lt};
ghost use Rattle.product.specs.Parts.{rows};
ghost use Rattle.artifact.specs.Art.{art, no_art, imported, with_import};

use crate::artifact::Artifact;
use bounded::{Bounded, Full, Pool};
use product::{Interface, Product};
use std::alloc::{AllocError, Global};

impl Artifact {
    // An artifact with nothing in it, and memory for all that its limits allow.
    pub fn open(heap: Global) -> Result<Artifact, AllocError>
        ensures { IfOk result (λ a. art a ≡ no_art) }
    {
        let source = Bounded::open(heap)?;
        let imports = Pool::open(heap, Interface::open)?;
        let next = Interface::open(heap)?;
        let product = Product::open(heap)?;
        Ok(Artifact {
            source,
            imports,
            next,
            product,
        })
    }

    // The interfaces of the imports.
    pub fn imports(&self) -> &[Interface]
        ensures { imported result.now ≡ (art self.now).imports }
    {
        self.imports.as_slice()
    }

    // Nothing in it.
    pub fn clear(&mut self)
        ensures { art self.new ≡ no_art }
    {
        self.source.clear();
        self.imports.clear();
        self.product.clear();
    }

    // One more interface of an import; refused, and nothing done, where four stand.
    pub fn add_import(&mut self, from: &Interface) -> Result<(), Full>
        ensures fits { is_ok result ≡ nat_lt (length (art self.old).imports) 4 }
        ensures after { art self.new ≡ (if is_ok result then with_import (art self.old) (rows from.now) else art self.old) }
    {
        self.next.copy_from(from);
        self.imports.add(&mut self.next)
    }
}
