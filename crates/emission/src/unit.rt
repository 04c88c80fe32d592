// The product of a unit: rows in line order, then the functions in line order.
ghost use Rattle.std.specs.Prelude.{◌≡◌, ◌<◌, is_ok};
ghost use Rattle.product.specs.Parts.{parts, no_parts};
ghost use Rattle.scope.specs.Sees.{sees};
ghost use Rattle.emission.specs.Wrote.{done};
ghost use Rattle.emission.specs.Emitted.{function_of, functions, row_of, rows_of};

use crate::emit::Emitting;
use crate::write::{add, enter, show};
use bounded::Full;
use grammar::{Declaration, Kind, descend, expression_of};
use product::{Product, Row};
use values::known_value;

impl<'a> Emitting<'a> {
    fn emit_function(&self, d: &Declaration, out: &mut Product) -> Result<(), Full>
        ensures { done (is_ok result) (parts out.new) ≡ function_of self.now.unit.own.now self.now.known.now (sees self.now.unit) self.now.unit.tokens.now d.now (parts out.old) }
    {
        enter(out)?;
        descend(self, expression_of(self.unit.tokens, d), 9, out).ok_or(Full)?;
        add(&[0x3F], out)
    }

    // Writes the code of the functions, in line order; refused where it has no room, or a name in it no value.
    pub fn emit_functions(&self, out: &mut Product) -> Result<(), Full>
        ensures { done (is_ok result) (parts out.new) ≡ functions self.now.unit.own.now self.now.known.now (sees self.now.unit) self.now.unit.tokens.now (parts out.old) self.now.unit.own.now }
    {
        for d in self.unit.own {
            if d.kind == Kind::Function {
                self.emit_function(d, out)?;
            }
        }
        Ok(())
    }

    // The row of a declaration behind k functions.
    fn row(&self, k: usize, d: &Declaration) -> Row
        requires { k < 1000 }
        ensures { result ≡ row_of self.now.known.now k d.now }
    {
        let value = match d.kind {
            Kind::Constant => known_value(&d.name, self.known).unwrap_or(0),
            // kept as `as`: few functions stand, and no `From` leads from a usize to an i32
            Kind::Function => k as i32,
        };
        Row {
            name: d.name,
            // the discriminant of a kind is its number in a row
            kind: d.kind as u8,
            value,
            line: d.line,
        }
    }

    // Fills an emptied product with the rows of the declarations, in line order.
    pub fn show_rows(&self, out: &mut Product) -> Result<(), Full>
        ensures { done (is_ok result) (parts out.new) ≡ rows_of self.now.known.now 0 no_parts self.now.unit.own.now }
    {
        out.clear();
        // kept as a counter: among the rows it counts the functions alone
        let mut k = 0;
        for d in self.unit.own {
            show(self.row(k, d), out)?;
            if d.kind == Kind::Function {
                k += 1;
            }
        }
        Ok(())
    }
}
