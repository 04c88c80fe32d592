// One unit of a build: what it would be stored as, what is stored for it, and whether that is current.
ghost use Rattle.std.specs.Prelude.{◌≡◌, map, IfOk, option_and_then};
ghost use Rattle.product.specs.Parts.{rows, no_parts};
ghost use Rattle.codec.specs.Format.{got};
ghost use Rattle.artifact.specs.Art.{art, read, no_art};
ghost use Rattle.project.specs.Members.{member};
ghost use Rattle.ledger.specs.Fresh.{interfaces};
ghost use Rattle.ledger.specs.Shelf.{all_same};
ghost use Rattle.store.specs.Pairs.{lookup};
ghost use Rattle.ledger.specs.Stored.{artifact_in};
ghost use Rattle.building.specs.Finish.{done_list, same_art};
ghost use Rattle.building.specs.Step.{current_to};

use crate::desk::{Desk, Stale};
use crate::table::Done;
use artifact::Artifact;
use bounded::Bounded;
use names::Name;
use product::{Interface, Product};
use project::Unit;
use std::alloc::{AllocError, Global};
use store::Store;
use translator::Translator;

// Equally many interfaces, the same place by place.
fn same_imports<T: Translator>(translator: &T, a: &[Interface], b: &[Interface]) -> bool
    ensures { result ≡ all_same T.Translator.same (map rows a.now) (map rows b.now) }
{
    a.len() == b.len() && a.iter().zip(b).all(|(x, y)| translator.compare(x, y))
}

// The stored artifact has the source and the same interfaces as the unit now.
pub fn is_current<T: Translator>(translator: &T, kept: &Artifact, fresh: &Artifact) -> bool
    ensures { result ≡ same_art T.Translator.same (art kept.now) (art fresh.now) }
{
    kept.source.as_slice() == fresh.source.as_slice()
        && same_imports(translator, kept.imports(), fresh.imports())
}

// The record under a name, in the buffer. One that is longer than the buffer is no artifact, and counts as none.
fn recorded<'a, S: Store>(store: &mut S, name: Name, buffer: &'a mut [u8; 1896]) -> Option<&'a [u8]>
    ensures reads { option_and_then (λ bs. read bs.now) result ≡ artifact_in (lookup (S.Store.pairs store.old) name.bytes) }
    ensures pairs { S.Store.pairs store.new ≡ S.Store.pairs store.old }
    ensures rows { S.Store.rows store.new ≡ S.Store.rows store.old }
{
    let length = store.get(name, buffer).ok()??;
    Some(&buffer[..length])
}

// Reads what is stored under a name; a record that is no artifact counts as none.
pub fn look_up<S: Store>(
    store: &mut S,
    name: Name,
    buffer: &mut [u8; 1896],
    kept: &mut Artifact,
) -> Result<(), Stale>
    ensures finds { got result (art kept.new) ≡ artifact_in (lookup (S.Store.pairs store.old) name.bytes) }
    ensures pairs { S.Store.pairs store.new ≡ S.Store.pairs store.old }
    ensures rows { S.Store.rows store.new ≡ S.Store.rows store.old }
{
    let record = recorded(store, name, buffer).ok_or(Stale::Absent)?;
    kept.read(record).map_err(|_| Stale::Absent)
}

impl Desk {
    // Memory for one unit.
    pub fn open(heap: Global) -> Result<Desk, AllocError>
        ensures { IfOk result (λ d. art d.fresh ≡ no_art) }
    {
        let fresh = Artifact::open(heap)?;
        let kept = Artifact::open(heap)?;
        let scratch = Product::open(heap)?;
        let record = Bounded::open(heap)?;
        Ok(Desk {
            fresh,
            kept,
            scratch,
            record,
            buffer: [0; 1896],
        })
    }

    // The unit's source and the present interfaces of its imports, with no product yet.
    pub fn prepare(&mut self, done: &Done, unit: &Unit)
        ensures fresh { art self.new.fresh ≡ record { source = (member unit.now).source; imports = interfaces (done_list done.now) (member unit.now); product = no_parts } }
        ensures kept { art self.new.kept ≡ art self.old.kept }
    {
        let fresh = &mut self.fresh;
        fresh.clear();
        let _ = fresh.source.extend(unit.source());
        for name in unit.imports() {
            let _ = fresh.add_import(done.interface(*name));
        }
    }

    // Reads what is stored under the name: at hand where it is current to what the unit would be stored as.
    pub(crate) fn recall<T: Translator, S: Store>(
        &mut self,
        translator: &T,
        store: &mut S,
        name: Name,
    ) -> Result<(), Stale>
        ensures finds { got result (art self.new.kept) ≡ current_to T.Translator.same (art self.old.fresh) (artifact_in (lookup (S.Store.pairs store.old) name.bytes)) }
        ensures fresh { art self.new.fresh ≡ art self.old.fresh }
        ensures pairs { S.Store.pairs store.new ≡ S.Store.pairs store.old }
        ensures rows { S.Store.rows store.new ≡ S.Store.rows store.old }
    {
        look_up(store, name, &mut self.buffer, &mut self.kept)?;
        if is_current(translator, &self.kept, &self.fresh) {
            Ok(())
        } else {
            Err(Stale::Changed)
        }
    }
}
