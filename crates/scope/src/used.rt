// Names that are used.
ghost use Rattle.std.specs.Prelude.{◌≡◌, ◌||◌};
ghost use Rattle.std.specs.Str.{bytes_eq};
ghost use Rattle.std.specs.Result.{result_err};
ghost use Rattle.grammar.specs.Line.{x_word};
ghost use Rattle.scope.specs.Names.{is_constant};
ghost use Rattle.scope.specs.Uses.{useful, all_useful, misused};
ghost use Rattle.scope.specs.Sees.{sees};

use crate::declared::{entry_of, is_constant};
use crate::imported::{constant_at, function_at};
use crate::unit::Unit;
use grammar::{Flaw, X, all_called, expression_of, spells};
use names::{Fault, Name};
use tokens::Token;

impl<'a> Unit<'a> {
    fn is_value(&self, name: &Name) -> bool
        ensures { result ≡ (bytes_eq name.now.bytes x_word || is_constant name.now.bytes self.now.own.now) }
    {
        spells(name, &X) || is_constant(name, self.own)
    }

    fn is_useful(&self, called: bool, token: &Token) -> bool
        ensures { result ≡ useful self.now.own.now (sees self.now) called token.now }
    {
        match token {
            Token::Name(name) => {
                if called {
                    entry_of(name, self.own).is_some()
                } else {
                    self.is_value(name)
                }
            }
            Token::Word { position, name } => {
                if called {
                    function_at(self.imports, *position, *name).is_some()
                } else {
                    constant_at(self.imports, *position, *name).is_some()
                }
            }
            _ => true,
        }
    }

    fn all_useful(&self, tokens: &[Token]) -> bool
        ensures { result ≡ all_useful self.now.own.now (sees self.now) tokens.now }
    {
        all_called(tokens, |called, token| self.is_useful(called, token))
    }

    // Refuses the first declaration that uses a name that is unknown or of no use there.
    pub fn check_uses(&self) -> Result<(), Fault>
        ensures { result_err result ≡ misused self.now.tokens.now self.now.own.now (sees self.now) self.now.own.now }
    {
        let wrong = self
            .own
            .iter()
            .find(|d| !self.all_useful(expression_of(self.tokens, d)));
        match wrong {
            Some(d) => Err(Flaw::IllUsed.at(d.line)),
            None => Ok(()),
        }
    }
}
