// Translating a unit, and putting its artifact into a store.
ghost use Rattle.std.specs.Prelude.{◌≡◌, ◌+◌, ◌%◌, ◌^◌};
ghost use Rattle.names.specs.Refusals.{answer};
ghost use Rattle.translator.specs.Owed.{shown};
ghost use Rattle.artifact.specs.Art.{art};
ghost use Rattle.ledger.specs.Stored.{view};
ghost use Rattle.building.specs.Finish.{PutArt};
ghost use Rattle.building.specs.Step.{MadeSays};

use crate::desk::Desk;
use crate::stop::Stop;
use names::{Fault, Name, Refusal};
use std::mem;
use store::Store;
use translator::Translator;

impl Desk {
    // Gives the unit the product of its source and interfaces, or answers the fault.
    pub fn translate<T: Translator>(&mut self, translator: &mut T) -> Result<(), Fault>
        ensures means { shown result (art self.new.fresh).product ≡ T.Translator.means (art self.old.fresh).source (art self.old.fresh).imports }
        ensures source { (art self.new.fresh).source ≡ (art self.old.fresh).source }
        ensures imports { (art self.new.fresh).imports ≡ (art self.old.fresh).imports }
        ensures kept { art self.new.kept ≡ art self.old.kept }
        ensures counts { T.Translator.asked translator.new ≡ (T.Translator.asked translator.old + 1) % 2 ^ 64 }
    {
        let fresh = &mut self.fresh;
        let scratch = &mut self.scratch;
        let result = translator.translate(fresh.source.as_slice(), fresh.imports(), scratch);
        mem::swap(&mut fresh.product, scratch);
        result
    }

    // Puts the unit's artifact under a name.
    pub fn keep<S: Store>(&mut self, store: &mut S, name: Name) -> Result<(), Refusal>
        ensures says { PutArt S.Store.LIMIT (S.Store.rows store.old) (view (S.Store.pairs store.old)) (view (S.Store.pairs store.new)) name.bytes (art self.old.fresh) (answer result) }
        ensures fresh { art self.new.fresh ≡ art self.old.fresh }
        ensures kept { art self.new.kept ≡ art self.old.kept }
        ensures rows { S.Store.rows store.new ≡ S.Store.rows store.old }
    {
        self.fresh.write(&mut self.record);
        store.put(name, self.record.as_slice())
    }

    // Translates the unit and puts its artifact.
    pub(crate) fn make<T: Translator, S: Store>(
        &mut self,
        translator: &mut T,
        store: &mut S,
        name: Name,
    ) -> Result<(), Stop>
        ensures says { MadeSays T.Translator.means S.Store.LIMIT (S.Store.rows store.old) name.bytes (art self.old.fresh) (art self.new.fresh) (view (S.Store.pairs store.old)) (view (S.Store.pairs store.new)) result }
        ensures rows { S.Store.rows store.new ≡ S.Store.rows store.old }
        ensures counts { T.Translator.asked translator.new ≡ (T.Translator.asked translator.old + 1) % 2 ^ 64 }
    {
        self.translate(translator)?;
        self.keep(store, name)?;
        Ok(())
    }
}
