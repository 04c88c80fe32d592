// The value of a constant's expression.
ghost use Rattle.std.specs.Prelude.{◌≡◌, ◌<◌, map, length};
ghost use Rattle.bounded.specs.Held.{held};
ghost use Rattle.product.specs.Parts.{rows};
ghost use Rattle.grammar.specs.Walk.{told};
ghost use Rattle.scope.specs.Sees.{sees};
ghost use Rattle.scope.specs.Uses.{outside};
ghost use Rattle.values.specs.Evaluation.{known as known_in, evaluating, value as value_in, learnt};

use crate::arithmetic::operate;
use crate::known::Known;
use bounded::Bounded;
use grammar::{Declaration, Flaw, Sense, descend, expression_of};
use names::{Fault, Name};
use product::Interface;
use scope::{Unit, constant_at};
use tokens::Operator;

// The value of a known constant.
pub fn known_value(name: &Name, known: &[Known]) -> Option<i32>
    ensures { result ≡ known_in name.now.bytes known.now }
{
    known.iter().find(|k| k.name == *name).map(|k| k.value)
}

// What a constant's expression comes to, where some constants are known.
#[derive(Clone, Copy)]
pub struct Evaluating<'a> {
    pub known: &'a [Known],
    pub imports: &'a [Interface],
}

impl<'a> Sense for Evaluating<'a> {
    type Value = i32;

    type State = ();

    ghost Seen = { Unit {0} };

    ghost view = { λ s. s };

    ghost means = { λ e. evaluating e.known.now (outside (map rows e.imports.now)) };

    fn number(&self, value: i32, _state: &mut ()) -> Option<i32> {
        Some(value)
    }

    fn named(&self, name: &Name, _state: &mut ()) -> Option<i32> {
        known_value(name, self.known)
    }

    fn word(&self, position: u8, name: &Name, _state: &mut ()) -> Option<i32> {
        constant_at(self.imports, position, *name)
    }

    fn operation(&self, operator: Operator, a: i32, b: i32, _state: &mut ()) -> Option<i32> {
        operate(operator, a, b)
    }

    fn call(&self, _name: &Name, _a: i32, _state: &mut ()) -> Option<i32> {
        None
    }

    fn call_word(&self, _position: u8, _name: &Name, _a: i32, _state: &mut ()) -> Option<i32> {
        None
    }
}

// The value of a constant.
pub(crate) fn value_of(unit: &Unit<'_>, known: &[Known], d: &Declaration) -> Option<i32>
    ensures { result ≡ value_in unit.now.tokens.now (sees unit.now) known.now d.now }
{
    let sense = Evaluating {
        known,
        imports: unit.imports,
    };
    let (value, _) = descend(&sense, expression_of(unit.tokens, d), 9, &mut ())?;
    Some(value)
}

// One constant more is known, or its line is at fault.
pub(crate) fn learn(
    d: &Declaration,
    value: Option<i32>,
    known: &mut Bounded<Known, 12>,
) -> Result<(), Fault>
    requires { length (held known.old) < 12 }
    ensures { told result (held known.new) ≡ learnt (held known.old) d.now value }
{
    let name = d.name;
    let value = value.ok_or(Flaw::NoValue.at(d.line))?;
    let _ = known.push(Known { name, value });
    Ok(())
}
