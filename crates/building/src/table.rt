ghost use Rattle.std.specs.Prelude.{◌≡◌, length};
ghost use Rattle.product.specs.Parts.{rows as rows_of};

use bounded::Pool;
use names::Name;
use product::{Interface, Product};

// A unit with its product.
#[derive(Drop)]
pub struct Finished {
    pub name: Name,
    pub product: Product,
}

// The units built so far, in link order. Beside them one to fill, and an interface with no row.
#[derive(Drop)]
pub struct Done {
    pub(crate) units: Pool<Finished, 24>,
    pub(crate) next: Finished,
    pub(crate) none: Interface,
    ghost empty: { length (rows_of none) ≡ 0 },
}
