// The check of a project: its link order, or why it has none.
ghost use Rattle.std.specs.Prelude.{◌≡◌, ℕ, ◌+◌, ◌*◌, ◌<◌, ◌≤◌, not, [], ◌∷◌, ◌++◌, map, length, IfOk, MatchResult, Some};
ghost use Rattle.std.specs.List.{slice_get};
ghost use Rattle.names.specs.Ordered.{name_cmp};
ghost use Rattle.bounded.specs.Held.{held};
ghost use Rattle.names.specs.Refusals.{answer};
ghost use Rattle.std.specs.Option.{option_map};
ghost use Rattle.project.specs.Members.{member, members};
ghost use Rattle.order.specs.Dependency.{placed, smallest, ordered};
ghost use Rattle.project.specs.Checked.{order_of, lack, lack_at, lacks, missing, circle, linked, needs_for, names as names_of, needs as needs_of, by_order, checked, verdict_number, shown};

use crate::links::Links;
use crate::unit::Unit;
use crate::whole::Project;
use bounded::Bounded;
use names::{Name, Refusal};
use order::{Need, Unordered};
use std::alloc::{AllocError, Global};

impl Project {
    // The first of these names that is no unit.
    fn lack(&self, imports: &[Name]) -> Option<usize>
        ensures { result ≡ lack (members self.now) imports.now }
    {
        imports.iter().position(|n| self.find(*n).is_none())
    }

    // The unit at a place.
    pub fn unit(&self, i: usize) -> Option<&Unit>
        ensures { option_map (λ u. member u.now) result ≡ slice_get (members self.now) i }
    {
        self.units.as_slice().get(i)
    }

    // The name of the unit at a place.
    pub fn name(&self, i: usize) -> Option<Name>
        ensures { result ≡ slice_get (names_of (members self.now)) i }
    {
        self.unit(i).map(|u| u.name())
    }
}

fn list_names(names: &mut Bounded<Name, 24>, project: &Project)
    ensures { held names.new ≡ names_of (members project.now) }
{
    names.clear();
    for unit in project.units.as_slice() {
        let _ = names.push(unit.name());
    }
}

// The item needs each of these names.
fn add_needs(needs: &mut Bounded<Need<Name>, 96>, item: usize, imports: &[Name])
    requires { length (held needs.old) + length imports.now ≤ 96 }
    ensures { held needs.new ≡ held needs.old ++ needs_for item imports.now }
{
    for n in imports {
        let _ = needs.push(Need { item, key: *n });
    }
}

fn list_needs(needs: &mut Bounded<Need<Name>, 96>, project: &Project)
    ensures { held needs.new ≡ needs_of 0 (members project.now) }
{
    needs.clear();
    for (i, unit) in project.units.as_slice().iter().enumerate() {
        add_needs(needs, i, unit.imports());
    }
}

// The units all of whose imports are units.
fn list_whole(whole: &mut Bounded<usize, 24>, project: &Project)
    ensures { (k : ℕ) → k < length (members project.now) → placed (held whole.new) k ≡ not (lacks (members project.now) (members project.now) k) }
{
    whole.clear();
    for (i, unit) in project.units.as_slice().iter().enumerate() {
        if project.lack(unit.imports()).is_none() {
            let _ = whole.push(i);
        }
    }
}

impl Links {
    // Memory for the link order of 24 units.
    pub fn open(heap: Global) -> Result<Links, AllocError>
        ensures { IfOk result (λ l. order_of l ≡ []) }
    {
        let names = Bounded::open(heap)?;
        let needs = Bounded::open(heap)?;
        let whole = Bounded::open(heap)?;
        let places = Bounded::open(heap)?;
        Ok(Links {
            names,
            needs,
            whole,
            places,
        })
    }

    // The places of the units in link order.
    pub fn places(&self) -> &[usize]
        ensures { result.now ≡ order_of self.now }
    {
        self.places.as_slice()
    }

    // The name of the smallest unit that lacks an import, and the position, from 1, of the first that it lacks.
    fn lacking(&mut self, project: &Project) -> Option<(Name, u8)>
        ensures value { option_map (λ p. missing (Some p.0) p.1) result ≡ option_map (λ i. missing (slice_get (names_of (members project.now)) i) (lack_at (members project.now) (slice_get (members project.now) i))) (smallest name_cmp (lacks (members project.now) (members project.now)) (names_of (members project.now))) }
        ensures names { held self.new.names ≡ names_of (members project.now) }
    {
        list_names(&mut self.names, project);
        list_whole(&mut self.whole, project);
        let i = order::smallest_left(self.names.as_slice(), self.whole.as_slice())?;
        let unit = project.unit(i)?;
        let k = project.lack(unit.imports())?;
        // kept as `as`: no `From` leads from a usize to a u8, and `as` is proved to lose nothing
        Some((unit.name(), k as u8 + 1))
    }

    // Orders the units, whose names are listed; or tells the smallest that a circle leaves over.
    fn arrange(&mut self, project: &Project) -> Result<(), Name>
        requires { held self.old.names ≡ names_of (members project.now) }
        ensures { let found = by_order (members project.now) (ordered name_cmp (names_of (members project.now)) (needs_of 0 (members project.now))) in MatchResult result (λ _. linked (order_of self.new) ≡ found) (λ unit. circle (Some unit) ≡ found) }
    {
        list_needs(&mut self.needs, project);
        let names = self.names.as_slice();
        let mut places = [0; 24];
        match order::order(names, self.needs.as_slice(), &mut places) {
            Ok(()) => {
                self.places.clear();
                let _ = self.places.extend(&places[..names.len()]);
                Ok(())
            }
            Err(Unordered::Stuck(i)) => Err(names[i]),
            Err(Unordered::Short) => unreachable!(),
        }
    }

    // Checks a project: 21 an import that is no unit, 22 a circle; else its link order is held.
    pub fn check(&mut self, project: &Project) -> Result<(), Refusal>
        ensures number { answer result ≡ verdict_number (checked (members project.now)) }
        ensures says { shown result (order_of self.new) ≡ checked (members project.now) }
    {
        if let Some((unit, position)) = self.lacking(project) {
            return Err(Refusal::ImportMissing { unit, position });
        }
        self.arrange(project)
            .map_err(|unit| Refusal::ImportCircle { unit })
    }
}
