// Echo, a translator to try things with: what it gives is easy to foresee.
ghost use Rattle.std.specs.Prelude.{◌≡◌};
ghost use Rattle.product.specs.Parts.{parts};
ghost use Rattle.translator.specs.Echoed.{echo, echoed, any, d_row};
ghost use Rattle.translator.specs.EchoLaws.{any_itself, any_turned, any_chained, echo_agrees, echo_bounded};

use crate::contract::Translator;
use crate::limits::admit;
use names::{Fault, Name};
use product::{Interface, Product, Row};

#[derive(Drop)]
pub struct Echo {
    count: u64,
}

impl Echo {
    // An echo that no translation was asked of.
    pub fn new() -> Echo
        ensures { result.count ≡ 0 }
    {
        Echo { count: 0 }
    }
}

// The row d. Its kind is a number, as those of all rows: echo has no kinds of its own.
fn d_row() -> Row
    ensures { result ≡ d_row }
{
    let name = Name::from_padded(*b"d\0\0\0\0\0\0\0").unwrap();
    Row {
        name,
        kind: 2,
        value: 0,
        line: 1,
    }
}

// Fills the product with what echo gives.
fn fill(source: &[u8], out: &mut Product)
    ensures { parts out.new ≡ echoed source.now }
{
    out.clear();
    let _ = out.interface.push(d_row());
    let _ = out.code.extend(&source[..source.len().min(8)]);
    let _ = out.code.push(0x3F);
    let _ = out.entries.push(0);
}

impl Translator for Echo {
    ghost means = { echo };

    ghost same = { any };

    ghost asked = { λ e. e.count };

    ghost itself = { any_itself };

    ghost turned = { any_turned };

    ghost chained = { any_chained };

    ghost agrees = { echo_agrees };

    ghost bounded = { echo_bounded };

    fn translate(
        &mut self,
        source: &[u8],
        imports: &[Interface],
        out: &mut Product,
    ) -> Result<(), Fault> {
        self.count = self.count.wrapping_add(1);
        admit(source, imports)?;
        fill(source, out);
        Ok(())
    }

    fn compare(&self, _a: &Interface, _b: &Interface) -> bool {
        true
    }

    fn count(&self) -> u64 {
        self.count
    }
}
