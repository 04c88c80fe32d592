// The units of a project put together in link order.
ghost use Rattle.std.specs.Prelude.{◌≡◌, ◌<◌, ◌≤◌, [], map, length, IfOk, Some, slice_index_or};
ghost use Rattle.std.specs.List.{slice_get};
ghost use Rattle.bounded.specs.Held.{held};
ghost use Rattle.image.specs.Picture.{units};
ghost use Rattle.project.specs.Members.{member, members};
ghost use Rattle.project.specs.Checked.{names as names_of};
ghost use Rattle.ledger.specs.Fresh.{Made, in_order};
ghost use Rattle.ledger.specs.Linking.{plain, lacking, linking};
ghost use Rattle.building.specs.Finish.{done_list};
ghost use Rattle.linker.specs.Assembled.{linked_as, entries_of, targets_of, Added};

use crate::assembler::{Assembler, Missing};
use crate::site::Site;
use bounded::Bounded;
use building::Done;
use image::{Image, Target};
use project::{Project, Unit};
use std::alloc::{AllocError, Global};

// How many entries the unit at a place has.
fn offers(done: &Done, i: usize) -> usize
    ensures { result ≡ length (slice_index_or (entries_of (done_list done.now)) i []) }
{
    done.product(i).map_or(0, |p| p.entries.len())
}

// The first target whose entry is missing.
fn first_lacking(done: &Done, targets: &[Target]) -> Option<usize>
    ensures { result ≡ lacking (entries_of (done_list done.now)) targets.now }
{
    targets.iter().position(|t| usize::from(t.entry) >= offers(done, usize::from(t.unit)))
}

impl Assembler {
    // Memory for the units of a project.
    pub fn open(heap: Global) -> Result<Assembler, AllocError>
        ensures { IfOk result (λ a. held a.names ≡ []) }
    {
        let names = Bounded::open(heap)?;
        let targets = Bounded::open(heap)?;
        Ok(Assembler { names, targets })
    }

    // Lists the names of the units at these places.
    fn list_names(&mut self, project: &Project, places: &[usize])
        ensures { length places.now < 25 → held self.new.names ≡ names_of (in_order (members project.now) places.now) }
    {
        self.names.clear();
        for p in places {
            if let Some(name) = project.name(*p) {
                let _ = self.names.push(name);
            }
        }
    }

    // The unit, the i-th in link order, behind those of the image; or the first of its references whose entry is missing.
    // kept with four parameters: they are the parts of one call, and a struct of them would be made for that call alone
    fn add_unit(
        &mut self,
        i: usize,
        unit: &Unit,
        done: &Done,
        image: &mut Image,
    ) -> Result<(), Missing>
        ensures added { (d : Made) → slice_get (done_list done.now) i ≡ Some d → length (units image.old).names < 24 → Added (entries_of (done_list done.now)) (targets_of (held self.old.names) i (member unit.now) d) (member unit.now) d (units image.old) (units image.new) result }
        ensures names { held self.new.names ≡ held self.old.names }
    {
        let Some(product) = done.product(i) else {
            return Ok(());
        };
        let site = Site {
            names: self.names.as_slice(),
            place: i,
            imports: unit.imports(),
        };
        site.resolve(product.references.as_slice(), &mut self.targets);
        let targets = self.targets.as_slice();
        if let Some(k) = first_lacking(done, targets) {
            // kept as `as`: no `From` leads from a usize to a u8, and `as` is proved to lose nothing
            return Err(Missing {
                unit: unit.name(),
                reference: k as u8,
            });
        }
        let _ = image.add(
            unit.name(),
            product.code.as_slice(),
            product.entries.as_slice(),
            targets,
        );
        Ok(())
    }

    // Puts the units at these places together, each with its product, in this order: an image; or the first reference whose entry is missing.
    pub fn assemble(
        &mut self,
        project: &Project,
        places: &[usize],
        done: &Done,
        image: &mut Image,
    ) -> Result<(), Missing>
        ensures { length (in_order (members project.now) places.now) ≡ length places.now → length (done_list done.now) ≡ length places.now → length places.now < 25 → linked_as result (units image.new) ≡ linking (in_order (members project.now) places.now) (map plain (done_list done.now)) }
    {
        self.list_names(project, places);
        image.clear();
        for (i, place) in places.iter().enumerate() {
            if let Some(unit) = project.unit(*place) {
                self.add_unit(i, unit, done, image)?;
            }
        }
        Ok(())
    }
}
