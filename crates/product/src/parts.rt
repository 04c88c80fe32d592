// A product: an interface, code, the places of the entries in the code, and the references that the code makes.
ghost use Rattle.std.specs.Prelude.{◌≡◌, [], IfOk};
ghost use Rattle.product.specs.Parts.{parts, no_parts};

use crate::interface::Interface;
use crate::row::Reference;
use bounded::Bounded;
use std::alloc::{AllocError, Global};

#[derive(Drop)]
pub struct Product {
    pub interface: Interface,
    pub code: Bounded<u8, 384>,
    pub entries: Bounded<u16, 12>,
    pub references: Bounded<Reference, 32>,
}

impl Product {
    // A product with nothing in it, and memory for all that its limits allow.
    pub fn open(heap: Global) -> Result<Product, AllocError>
        ensures { IfOk result (λ p. parts p ≡ no_parts) }
    {
        let interface = Interface::open(heap)?;
        let code = Bounded::open(heap)?;
        let entries = Bounded::open(heap)?;
        let references = Bounded::open(heap)?;
        Ok(Product {
            interface,
            code,
            entries,
            references,
        })
    }

    // Nothing in it.
    pub fn clear(&mut self)
        ensures { parts self.new ≡ no_parts }
    {
        self.interface.clear();
        self.code.clear();
        self.entries.clear();
        self.references.clear();
    }

    // The parts of another product in place of its own. A clone would want memory, and this never does.
    pub fn copy_from(&mut self, other: &Product)
        ensures { parts self.new ≡ parts other.now }
    {
        self.clear();
        self.interface.copy_from(&other.interface);
        let _ = self.code.extend(other.code.as_slice());
        let _ = self.entries.extend(other.entries.as_slice());
        let _ = self.references.extend(other.references.as_slice());
    }
}
