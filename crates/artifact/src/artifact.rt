use bounded::{Bounded, Pool};
use product::{Interface, Product};

// A translation on record: the source, the interfaces of the imports as they were, and what came out.
#[derive(Drop)]
pub struct Artifact {
    pub source: Bounded<u8, 512>,
    pub(crate) imports: Pool<Interface, 4>,
    // what the next interface is filled in
    pub(crate) next: Interface,
    pub product: Product,
}
