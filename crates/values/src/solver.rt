// The constants of a unit, in dependency order.
ghost use Rattle.std.specs.Prelude.{◌≡◌, ◌<◌, ◌≤◌, [], length, slice_get};
ghost use Rattle.bounded.specs.Held.{held};
ghost use Rattle.order.specs.Dependency.{ordered};
ghost use Rattle.grammar.specs.Walk.{told};
ghost use Rattle.scope.specs.Sees.{sees};
ghost use Rattle.values.specs.Solved.{behind, valued, circle, unordered as fault_of, settled, solved};
ghost use Rattle.std.specs.Ordering.{nat_cmp};

use crate::evaluation::{learn, value_of};
use crate::known::Known;
use crate::needed::{keep_constants, keep_lines, keep_needs};
use bounded::Bounded;
use grammar::{Declaration, Flaw};
use names::Fault;
use order::{Need, Unordered, order};
use scope::Unit;
use std::alloc::{AllocError, Global};

fn declaration_at(declarations: &[Declaration], place: usize) -> Option<Declaration>
    ensures { result ≡ slice_get declarations.now place }
{
    declarations.get(place).copied()
}

// The fault of a circle, by the smallest constant left.
fn circle_at(constants: &[Declaration], place: usize) -> Fault
    ensures { result ≡ circle (slice_get constants.now place) }
{
    Flaw::Circle.at(declaration_at(constants, place).map_or(0, |d| d.line))
}

// Why constants without an order are at fault.
fn unordered(constants: &[Declaration], why: Unordered) -> Fault
    ensures { result ≡ fault_of constants.now why }
{
    match why {
        Unordered::Stuck(place) => circle_at(constants, place),
        Unordered::Short => Flaw::TooMuch.at(0),
    }
}

// What the order of a unit's constants is worked out in.
#[derive(Drop)]
pub struct Solver {
    constants: Bounded<Declaration, 12>,
    keys: Bounded<u16, 12>,
    needs: Bounded<Need<u16>, 144>,
}

impl Solver {
    // Memory for the constants of a unit.
    pub fn open(heap: Global) -> Result<Solver, AllocError> {
        let constants = Bounded::open(heap)?;
        let keys = Bounded::open(heap)?;
        let needs = Bounded::open(heap)?;
        Ok(Solver {
            constants,
            keys,
            needs,
        })
    }

    // Learns the value of the constant at a place.
    fn value_next(
        &self,
        unit: &Unit<'_>,
        place: usize,
        known: &mut Bounded<Known, 12>,
    ) -> Result<(), Fault>
        requires { length (held known.old) < 12 }
        ensures { told result (held known.new) ≡ behind unit.now.tokens.now (sees unit.now) (held known.old) (slice_get (held self.now.constants) place) }
    {
        match declaration_at(self.constants.as_slice(), place) {
            Some(d) => learn(&d, value_of(unit, known.as_slice(), &d), known),
            None => Ok(()),
        }
    }

    // Learns the values of the constants at these places, one after the other.
    fn value_all(
        &self,
        unit: &Unit<'_>,
        places: &[usize],
        known: &mut Bounded<Known, 12>,
    ) -> Result<(), Fault>
        requires { length places.now ≤ 12 }
        ensures { told result (held known.new) ≡ valued unit.now.tokens.now (sees unit.now) (held self.now.constants) [] places.now }
    {
        known.clear();
        for p in places {
            self.value_next(unit, *p, known)?;
        }
        Ok(())
    }

    // Orders the constants by their lines, and learns their values.
    fn settle(&self, unit: &Unit<'_>, known: &mut Bounded<Known, 12>) -> Result<(), Fault>
        requires { length (held self.now.keys) ≡ length (held self.now.constants) }
        ensures { told result (held known.new) ≡ settled unit.now.tokens.now (sees unit.now) (held self.now.constants) (ordered nat_cmp (held self.now.keys) (held self.now.needs)) }
    {
        let mut places = [0usize; 12];
        let constants = self.constants.as_slice();
        order(self.keys.as_slice(), self.needs.as_slice(), &mut places).map_err(|why| unordered(
            constants, why,
        ))?;
        self.value_all(unit, &places[..constants.len()], known)
    }

    // Fills the list with the constants and their values, or answers the fault.
    pub fn solve(&mut self, unit: &Unit<'_>, known: &mut Bounded<Known, 12>) -> Result<(), Fault>
        ensures { told result (held known.new) ≡ solved unit.now.tokens.now (sees unit.now) unit.now.own.now }
    {
        if unit.own.len() > 12 {
            return Err(Flaw::TooMuch.at(0));
        }
        keep_constants(unit.own, &mut self.constants);
        keep_lines(&self.constants, &mut self.keys);
        keep_needs(unit.tokens, &self.constants, &mut self.needs);
        self.settle(unit, known)
    }
}
