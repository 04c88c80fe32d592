// One unit of a build: kept where what is stored is current, else translated and put.
ghost use Rattle.std.specs.Prelude.{◌≡◌, ◌+◌, ◌<◌, ◌≤◌, [], ◌∷◌, length, None};
ghost use Rattle.bounded.specs.Held.{held};
ghost use Rattle.product.specs.Parts.{no_parts};
ghost use Rattle.artifact.specs.Art.{art};
ghost use Rattle.project.specs.Members.{Member, member};
ghost use Rattle.ledger.specs.Meaning.{meaning};
ghost use Rattle.ledger.specs.Fresh.{interfaces};
ghost use Rattle.ledger.specs.Shelf.{art_of, translations, raised};
ghost use Rattle.ledger.specs.Stored.{view, stored};
ghost use Rattle.building.specs.Finish.{done_list};
ghost use Rattle.building.specs.Step.{mark_of, UnitBuilt, current_in};

use crate::mark::Mark;
use crate::stop::Stop;
use crate::workshop::Workshop;
use names::Name;
use project::Unit;
use store::Store;
use translator::Translator;

impl Workshop {
    // Translates the unit at hand, puts its artifact and takes its product over.
    fn make_unit<T: Translator, S: Store>(
        &mut self,
        translator: &mut T,
        store: &mut S,
        name: Name,
    ) -> Result<Mark, Stop>
        ensures built { length (done_list self.old.done) < 24 → (u : Member) → u.name ≡ name → art self.old.desk.fresh ≡ art_of u (interfaces (done_list self.old.done) u) no_parts → current_in (meaning T.Translator.means T.Translator.same) (stored S.Store.LIMIT (S.Store.rows store.old)) u (done_list self.old.done) (view (S.Store.pairs store.old)) ≡ None → UnitBuilt (meaning T.Translator.means T.Translator.same) (stored S.Store.LIMIT (S.Store.rows store.old)) u (done_list self.old.done) (done_list self.new.done) (view (S.Store.pairs store.old)) (view (S.Store.pairs store.new)) result }
        ensures grows { length (done_list self.new.done) ≤ length (done_list self.old.done) + 1 }
        ensures marks { held self.new.marks ≡ held self.old.marks }
        ensures rows { S.Store.rows store.new ≡ S.Store.rows store.old }
        ensures counts { T.Translator.asked translator.new ≡ raised (T.Translator.asked translator.old) (translations (mark_of result ∷ [])) }
    {
        self.desk.make(translator, store, name)?;
        let _ = self.done.push(name, &mut self.desk.fresh.product);
        Ok(Mark::Translated)
    }

    // Keeps the unit where what is stored is current; else translates it and puts its artifact.
    pub(crate) fn build_unit<T: Translator, S: Store>(
        &mut self,
        translator: &mut T,
        store: &mut S,
        unit: &Unit,
    ) -> Result<Mark, Stop>
        ensures built { length (done_list self.old.done) < 24 → UnitBuilt (meaning T.Translator.means T.Translator.same) (stored S.Store.LIMIT (S.Store.rows store.old)) (member unit.now) (done_list self.old.done) (done_list self.new.done) (view (S.Store.pairs store.old)) (view (S.Store.pairs store.new)) result }
        ensures grows { length (done_list self.new.done) ≤ length (done_list self.old.done) + 1 }
        ensures marks { held self.new.marks ≡ held self.old.marks }
        ensures rows { S.Store.rows store.new ≡ S.Store.rows store.old }
        ensures counts { T.Translator.asked translator.new ≡ raised (T.Translator.asked translator.old) (translations (mark_of result ∷ [])) }
    {
        let name = unit.name();
        self.desk.prepare(&self.done, unit);
        if self.desk.recall(translator, store, name).is_err() {
            return self.make_unit(translator, store, name);
        }
        let _ = self.done.push(name, &mut self.desk.kept.product);
        Ok(Mark::Kept)
    }
}
