// The products of the units built so far.
ghost use Rattle.std.specs.Prelude.{◌≡◌, [], ◌∷◌, ◌++◌, length, is_ok, IfOk, OnErr, if◌then◌else◌, nat_lt};
ghost use Rattle.product.specs.Parts.{rows, parts, no_parts};
ghost use Rattle.std.specs.Option.{option_map};
ghost use Rattle.std.specs.List.{slice_get};
ghost use Rattle.ledger.specs.Fresh.{Made, interface_of};
ghost use Rattle.building.specs.Finish.{finished, done_list};

use crate::table::{Done, Finished};
use bounded::{Full, Pool};
use names::Name;
use product::{Interface, Product};
use std::alloc::{AllocError, Global};
use std::mem;

impl Finished {
    // Memory for a unit with its product: the smallest name, and a product with nothing in it.
    pub(crate) fn open(heap: Global) -> Result<Finished, AllocError>
        ensures { IfOk result (λ f. (finished f).parts ≡ no_parts) }
    {
        let product = Product::open(heap)?;
        Ok(Finished {
            name: Name::least(),
            product,
        })
    }
}

impl Done {
    // No units, and memory for 24.
    pub fn open(heap: Global) -> Result<Done, AllocError>
        ensures { IfOk result (λ d. done_list d ≡ []) }
    {
        let units = Pool::open(heap, Finished::open)?;
        let next = Finished::open(heap)?;
        let none = Interface::open(heap)?;
        Ok(Done { units, next, none })
    }

    // Forgets all units.
    pub fn clear(&mut self)
        ensures { done_list self.new ≡ [] }
    {
        self.units.clear();
    }

    // The interface of the unit of a name, or one with no row.
    pub fn interface(&self, name: Name) -> &Interface
        ensures { rows result.now ≡ interface_of (done_list self.now) name }
    {
        self.units
            .as_slice()
            .iter()
            .find(|f| f.name == name)
            .map_or(&self.none, |f| &f.product.interface)
    }

    // The product of the unit at a place in link order.
    pub fn product(&self, i: usize) -> Option<&Product>
        ensures { option_map (λ p. parts p.now) result ≡ option_map (λ (d : Made). d.parts) (slice_get (done_list self.now) i) }
    {
        self.units.as_slice().get(i).map(|f| &f.product)
    }

    // One unit more, with a product that is taken over; refused, and nothing done, where 24 stand.
    pub fn push(&mut self, name: Name, product: &mut Product) -> Result<(), Full>
        ensures fits { is_ok result ≡ nat_lt (length (done_list self.old)) 24 }
        ensures after { done_list self.new ≡ (if is_ok result then done_list self.old ++ (record { unit = name; parts = parts product.old }) ∷ [] else done_list self.old) }
        ensures refused { OnErr result (parts product.new ≡ parts product.old) }
    {
        if self.units.len() >= 24 {
            return Err(Full);
        }
        self.next.name = name;
        mem::swap(&mut self.next.product, product);
        self.units.add(&mut self.next)
    }
}
