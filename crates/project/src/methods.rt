ghost use Rattle.std.specs.Prelude.{◌≡◌, [], is_ok, IfOk, if◌then◌else◌};
ghost use Rattle.names.specs.Refusals.{answer};
ghost use Rattle.project.specs.Members.{same, members, at, with, without, put_answer, remove_answer};

use crate::unit::Unit;
use crate::whole::Project;
use bounded::Pool;
use names::{Name, Refusal};
use std::alloc::{AllocError, Global};

impl Project {
    // A project with no unit, and memory for 24.
    pub fn open(heap: Global) -> Result<Project, AllocError>
        ensures { IfOk result (λ p. members p ≡ []) }
    {
        let units = Pool::open(heap, Unit::open)?;
        let next = Unit::open(heap)?;
        Ok(Project { units, next })
    }

    // The place of the unit of a name.
    pub fn find(&self, name: Name) -> Option<usize>
        ensures { result ≡ at name (members self.now) }
    {
        self.units.as_slice().iter().position(|u| u.name == name)
    }

    // Puts a unit in the place of the one of its name, or adds it.
    pub fn put(&mut self, name: Name, imports: &[Name], source: &[u8]) -> Result<(), Refusal>
        ensures answers { answer result ≡ put_answer (record { name = name; imports = imports.now; source = source.now }) (members self.old) }
        ensures after { members self.new ≡ (if is_ok result then with (record { name = name; imports = imports.now; source = source.now }) (members self.old) else members self.old) }
    {
        self.next.fill(name, imports, source)?;
        match self.find(name) {
            Some(i) => {
                self.units.replace(i, &mut self.next);
                Ok(())
            }
            None => self
                .units
                .add(&mut self.next)
                .map_err(|_| Refusal::TooManyUnits),
        }
    }

    // Ends the unit of a name.
    pub fn remove(&mut self, name: Name) -> Result<(), Refusal>
        ensures answers { answer result ≡ remove_answer name (members self.old) }
        ensures after { members self.new ≡ (if is_ok result then without name (members self.old) else members self.old) }
    {
        let i = self.find(name).ok_or(Refusal::NoSuchUnit)?;
        self.units.remove(i);
        Ok(())
    }
}
