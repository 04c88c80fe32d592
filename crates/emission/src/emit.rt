// The code of expressions.
ghost use Rattle.std.specs.Prelude.{◌≡◌, map};
ghost use Rattle.product.specs.Parts.{Parts, rows, parts};
ghost use Rattle.scope.specs.Names.{entry_of as number_of};
ghost use Rattle.scope.specs.Uses.{outside};
ghost use Rattle.scope.specs.Sees.{sees};
ghost use Rattle.emission.specs.Emitted.{own_call, word_call, emitting};

use crate::write::{add, call, opcode_of, push};
use grammar::{Declaration, Sense, X, spells};
use names::Name;
use product::{Interface, Product, Reference};
use scope::{Unit, constant_at, entry_of, function_at};
use tokens::Operator;
use values::{Known, known_value};

fn own_reference(own: &[Declaration], name: &Name) -> Option<Reference>
    ensures { result ≡ own_call (number_of name.now.bytes own.now) }
{
    let entry = u8::try_from(entry_of(name, own)?).ok()?;
    Some(Reference { position: 0, entry })
}

fn word_reference(imports: &[Interface], position: u8, name: &Name) -> Option<Reference>
    ensures { result ≡ word_call position ((outside (map rows imports.now)).function position name.now.bytes) }
{
    let entry = function_at(imports, position, *name)?;
    Some(Reference { position, entry })
}

// A unit whose constants are known: what its parts write behind a product.
#[derive(Clone, Copy)]
pub struct Emitting<'a> {
    pub unit: Unit<'a>,
    pub known: &'a [Known],
}

impl<'a> Sense for Emitting<'a> {
    type Value = ();

    type State = Product;

    ghost Seen = { Parts };

    ghost view = { parts };

    ghost means = { λ e. emitting e.unit.own.now e.known.now (sees e.unit) };

    fn number(&self, value: i32, out: &mut Product) -> Option<()> {
        push(value, out).ok()
    }

    fn named(&self, name: &Name, out: &mut Product) -> Option<()> {
        if spells(name, &X) {
            return add(&[0x02], out).ok();
        }
        push(known_value(name, self.known)?, out).ok()
    }

    fn word(&self, position: u8, name: &Name, out: &mut Product) -> Option<()> {
        push(constant_at(self.unit.imports, position, *name)?, out).ok()
    }

    fn operation(&self, operator: Operator, _a: (), _b: (), out: &mut Product) -> Option<()> {
        add(&[opcode_of(operator)], out).ok()
    }

    fn call(&self, name: &Name, _a: (), out: &mut Product) -> Option<()> {
        call(own_reference(self.unit.own, name)?, out).ok()
    }

    fn call_word(&self, position: u8, name: &Name, _a: (), out: &mut Product) -> Option<()> {
        call(word_reference(self.unit.imports, position, name)?, out).ok()
    }
}
