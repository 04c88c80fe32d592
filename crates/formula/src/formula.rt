// The formula translator.
ghost use Rattle.std.specs.Prelude.{◌≡◌, IfOk};
ghost use Rattle.translator.specs.House.{house};
ghost use Rattle.formula.specs.Language.{formula};
ghost use Rattle.translator.proofs.Alike.{house_itself, house_turned, house_chained};
ghost use Rattle.formula.specs.Congruence.{agrees};
ghost use Rattle.formula.specs.Limits.{keeps};

use crate::phases::compile;
use bounded::Bounded;
use grammar::{Declaration, Flaw, declare};
use names::Fault;
use product::{Interface, Product};
use scope::Unit;
use std::alloc::{AllocError, Global};
use tokens::{Token, read};
use translator::{Translator, admit, same_rows};
use values::{Known, Solver};

// A translator of formula sources, with the memory that it works in.
#[derive(Drop)]
pub struct Formula {
    count: u64,
    tokens: Bounded<Token, 513>,
    declarations: Bounded<Declaration, 513>,
    solver: Solver,
    known: Bounded<Known, 12>,
}

impl Formula {
    // A translator that no translation was asked of, with memory for any source.
    pub fn open(heap: Global) -> Result<Formula, AllocError>
        ensures { IfOk result (λ f. f.count ≡ 0) }
    {
        let tokens = Bounded::open(heap)?;
        let declarations = Bounded::open(heap)?;
        let solver = Solver::open(heap)?;
        let known = Bounded::open(heap)?;
        Ok(Formula {
            count: 0,
            tokens,
            declarations,
            solver,
            known,
        })
    }
}

impl Translator for Formula {
    ghost means = { formula };

    ghost same = { house };

    ghost asked = { λ f. f.count };

    ghost itself = { house_itself };

    ghost turned = { house_turned };

    ghost chained = { house_chained };

    ghost agrees = { agrees };

    ghost bounded = { λ source imports h. keeps source imports };

    fn translate(
        &mut self,
        source: &[u8],
        imports: &[Interface],
        out: &mut Product,
    ) -> Result<(), Fault> {
        self.count = self.count.wrapping_add(1);
        admit(source, imports)?;
        // `admit` stands before it, so this cannot come
        read(source, &mut self.tokens).map_err(|_| Flaw::TooMuch.at(0))?;
        declare(&self.tokens, &mut self.declarations)?;
        let unit = Unit {
            tokens: self.tokens.as_slice(),
            own: self.declarations.as_slice(),
            imports,
        };
        compile(&mut self.solver, &mut self.known, &unit, out)
    }

    fn compare(&self, a: &Interface, b: &Interface) -> bool {
        same_rows(a.rows(), b.rows())
    }

    fn count(&self) -> u64 {
        let asked = self.count;
        asked
    }
}
