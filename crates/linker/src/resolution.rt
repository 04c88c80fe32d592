// References resolved to a unit and an entry.
ghost use Rattle.std.specs.Prelude.{◌≡◌, ◌<◌, ◌≤◌, map, length};
ghost use Rattle.std.specs.Option.{unwrap_or};
ghost use Rattle.bounded.specs.Held.{held};
ghost use Rattle.linker.specs.Place.{named, goal, resolved_by};

use crate::site::Site;
use bounded::Bounded;
use image::Target;
use names::Name;
use product::Reference;

impl Site<'_> {
    // The place of a name.
    fn named(&self, name: Name) -> Option<usize>
        ensures { result ≡ named name self.now.names.now }
    {
        self.names.iter().position(|n| *n == name)
    }

    // The place of the unit that a position goes to.
    fn goal(&self, position: u8) -> Option<usize>
        ensures { result ≡ goal self.now.names.now self.now.place self.now.imports.now position }
    {
        match position.checked_sub(1) {
            None => Some(self.place),
            Some(k) => self.named(*self.imports.get(usize::from(k))?),
        }
    }

    // A reference, resolved; to place 0 where its position goes to no unit.
    fn resolved(&self, reference: &Reference) -> Target
        ensures { result ≡ resolved_by self.now.names.now self.now.place self.now.imports.now reference.now }
    {
        // kept as `as`: no `From` leads from a usize to a u8, and `as` is proved to lose nothing
        Target {
            unit: self.goal(reference.position).unwrap_or(0) as u8,
            entry: reference.entry,
        }
    }

    // References, resolved.
    pub(crate) fn resolve(&self, references: &[Reference], targets: &mut Bounded<Target, 32>)
        requires { length references.now ≤ 32 }
        ensures { held targets.new ≡ map (resolved_by self.now.names.now self.now.place self.now.imports.now) references.now }
    {
        targets.clear();
        for r in references {
            let _ = targets.push(self.resolved(r));
        }
    }
}
