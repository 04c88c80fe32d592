// The units of a project in link order, one after the other.
ghost use Rattle.std.specs.Prelude.{◌≡◌, ℕ, ◌+◌, ◌<◌, ◌≤◌, List, [], ◌∷◌, length, IfOk};
ghost use Rattle.bounded.specs.Held.{held};
ghost use Rattle.project.specs.Members.{members};
ghost use Rattle.ledger.specs.Meaning.{meaning};
ghost use Rattle.ledger.specs.Fresh.{in_order};
ghost use Rattle.ledger.specs.Shelf.{build_units, translations, raised};
ghost use Rattle.ledger.specs.Stored.{view, stored};
ghost use Rattle.building.specs.Finish.{done_list};
ghost use Rattle.building.specs.Course.{ended_of, numbers, ahead, gone};

use crate::desk::Desk;
use crate::mark::Mark;
use crate::table::Done;
use crate::workshop::{Halt, Workshop};
use bounded::Bounded;
use project::Project;
use std::alloc::{AllocError, Global};
use store::Store;
use translator::Translator;

impl Workshop {
    // Memory for the builds of a project.
    pub fn open(heap: Global) -> Result<Workshop, AllocError>
        ensures done { IfOk result (λ w. done_list w.done ≡ []) }
        ensures marks { IfOk result (λ w. held w.marks ≡ []) }
    {
        let desk = Desk::open(heap)?;
        let done = Done::open(heap)?;
        let marks = Bounded::open(heap)?;
        Ok(Workshop { desk, done, marks })
    }

    // The units that have their product since the last build began.
    pub fn done(&self) -> &Done
        ensures { done_list result.now ≡ done_list self.now.done }
    {
        &self.done
    }

    // What became of each unit that the last build came to.
    pub fn marks(&self) -> &[Mark]
        ensures { result.now ≡ held self.now.marks }
    {
        self.marks.as_slice()
    }

    // The unit at a place of the project, if there is one.
    // kept with four parameters: they are the parts of one call, and a struct of them would be made for that call alone
    fn build_at<T: Translator, S: Store>(
        &mut self,
        translator: &mut T,
        store: &mut S,
        project: &Project,
        place: usize,
    ) -> Result<(), Halt>
        requires { length (held self.old.marks) < 24 }
        ensures goes { length (done_list self.old.done) < 24 → (more : List ℕ) → ahead (numbers (held self.old.marks)) (build_units (meaning T.Translator.means T.Translator.same) (stored S.Store.LIMIT (S.Store.rows store.old)) (in_order (members project.now) (place ∷ more)) (done_list self.old.done) (view (S.Store.pairs store.old))) ≡ gone result (numbers (held self.new.marks)) (done_list self.new.done) (view (S.Store.pairs store.new)) (build_units (meaning T.Translator.means T.Translator.same) (stored S.Store.LIMIT (S.Store.rows store.old)) (in_order (members project.now) more) (done_list self.new.done) (view (S.Store.pairs store.new))) }
        ensures grows { length (done_list self.new.done) ≤ length (done_list self.old.done) + 1 }
        ensures marks { length (held self.new.marks) ≤ length (held self.old.marks) + 1 }
        ensures rows { S.Store.rows store.new ≡ S.Store.rows store.old }
        ensures counts { (a : ℕ) → T.Translator.asked translator.old ≡ raised a (translations (numbers (held self.old.marks))) → T.Translator.asked translator.new ≡ raised a (translations (numbers (held self.new.marks))) }
    {
        let Some(unit) = project.unit(place) else {
            return Ok(());
        };
        match self.build_unit(translator, store, unit) {
            Ok(mark) => {
                let _ = self.marks.push(mark);
                Ok(())
            }
            Err(stop) => {
                let _ = self.marks.push(Mark::Failed);
                Err(Halt {
                    unit: unit.name(),
                    stop,
                })
            }
        }
    }

    // Builds all units at these places, in order, until one fails.
    // kept with four parameters: they are the parts of one call, and a struct of them would be made for that call alone
    pub fn build<T: Translator, S: Store>(
        &mut self,
        translator: &mut T,
        store: &mut S,
        project: &Project,
        places: &[usize],
    ) -> Result<(), Halt>
        requires { length places.now ≤ 24 }
        ensures built { build_units (meaning T.Translator.means T.Translator.same) (stored S.Store.LIMIT (S.Store.rows store.old)) (in_order (members project.now) places.now) [] (view (S.Store.pairs store.old)) ≡ record { ended = ended_of result; marks = numbers (held self.new.marks); done = done_list self.new.done; state = view (S.Store.pairs store.new) } }
        ensures rows { S.Store.rows store.new ≡ S.Store.rows store.old }
        ensures counts { T.Translator.asked translator.new ≡ raised (T.Translator.asked translator.old) (translations (numbers (held self.new.marks))) }
    {
        self.done.clear();
        self.marks.clear();
        for place in places {
            self.build_at(translator, store, project, *place)?;
        }
        Ok(())
    }
}
