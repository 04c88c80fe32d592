// The phases behind the reading of the lines.
ghost use Rattle.std.specs.Prelude.{◌≡◌, is_ok};
ghost use Rattle.product.specs.Parts.{parts, no_parts};
ghost use Rattle.translator.specs.Owed.{shown};
ghost use Rattle.scope.specs.Names.{misnamed};
ghost use Rattle.scope.specs.Sees.{sees};
ghost use Rattle.emission.specs.Wrote.{done, then};
ghost use Rattle.emission.specs.Emitted.{functions, rows_of};
ghost use Rattle.formula.specs.Language.{with_names};

use bounded::{Bounded, Full};
use emission::Emitting;
use grammar::Flaw;
use names::Fault;
use product::Product;
use scope::{Unit, check_names};
use values::{Known, Solver};

fn write(emitting: &Emitting<'_>, out: &mut Product) -> Result<(), Full>
    ensures { done (is_ok result) (parts out.new) ≡ then (rows_of emitting.now.known.now 0 no_parts emitting.now.unit.own.now) (λ p. functions emitting.now.unit.own.now emitting.now.known.now (sees emitting.now.unit) emitting.now.unit.tokens.now p emitting.now.unit.own.now) }
{
    emitting.show_rows(out)?;
    emitting.emit_functions(out)
}

pub fn compile(
    solver: &mut Solver,
    known: &mut Bounded<Known, 12>,
    unit: &Unit<'_>,
    out: &mut Product,
) -> Result<(), Fault>
    ensures { shown result (parts out.new) ≡ with_names unit.now.tokens.now (sees unit.now) unit.now.own.now (misnamed unit.now.own.now 0 unit.now.own.now) }
{
    check_names(unit.own)?;
    unit.check_uses()?;
    solver.solve(unit, known)?;
    let emitting = Emitting {
        unit: *unit,
        known: known.as_slice(),
    };
    write(&emitting, out).map_err(|_| Flaw::TooMuch.at(0))?;
    Ok(())
}
