// Reading expressions.
ghost use Rattle.std.specs.Prelude.{◌≡◌};
ghost use Rattle.std.specs.Option.{option_map};
ghost use Rattle.grammar.specs.Expression.{past, within, level, expression};
ghost use Rattle.grammar.specs.Came.{seen};
ghost use Rattle.grammar.specs.Form.{checking, behind};

use crate::sense::Sense;
use names::Name;
use tokens::{Operator, Token};

// What stands behind a closing parenthesis.
fn closed<'a>(tokens: &'a [Token]) -> Option<&'a [Token]>
    ensures { option_map (λ x. x.now) result ≡ past tokens.now }
{
    let (token, rest) = tokens.split_first()?;
    match token {
        Token::Close => Some(rest),
        _ => None,
    }
}

// What the expression at the front, of fewer than so many levels, comes to, and what stands behind it.
#[cycle(descend_descend_level_descend_within)]
pub fn descend<'a, M: Sense>(
    sense: &M,
    tokens: &'a [Token],
    levels: u8,
    state: &mut M::State,
) -> Option<(M::Value, &'a [Token])>
    ensures { seen result (M.view state.new) ≡ expression (M.means sense.now) levels (M.view state.old) tokens.now }
{
    if levels == 0 {
        return None;
    }
    descend_level(sense, tokens, levels - 1, state)
}

// The same, with so many levels inside.
#[cycle(descend_descend_level_descend_within)]
fn descend_level<'a, M: Sense>(
    sense: &M,
    tokens: &'a [Token],
    levels: u8,
    state: &mut M::State,
) -> Option<(M::Value, &'a [Token])>
    ensures { seen result (M.view state.new) ≡ level (M.means sense.now) (expression (M.means sense.now) levels) (M.view state.old) tokens.now }
{
    let (token, rest) = tokens.split_first()?;
    match token {
        Token::Number(value) => Some((sense.number(*value, state)?, rest)),
        Token::Name(name) => Some((sense.named(name, state)?, rest)),
        Token::Word { position, name } => Some((sense.word(*position, name, state)?, rest)),
        Token::Open => descend_within(sense, rest, levels, state),
        _ => None,
    }
}

// The same behind an open parenthesis.
#[cycle(descend_descend_level_descend_within)]
fn descend_within<'a, M: Sense>(
    sense: &M,
    tokens: &'a [Token],
    levels: u8,
    state: &mut M::State,
) -> Option<(M::Value, &'a [Token])>
    ensures { seen result (M.view state.new) ≡ within (M.means sense.now) (expression (M.means sense.now) levels) (M.view state.old) tokens.now }
{
    let (token, rest) = tokens.split_first()?;
    match token {
        Token::Operator(operator) => {
            let (a, second) = descend(sense, rest, levels, state)?;
            let (b, end) = descend(sense, second, levels, state)?;
            Some((sense.operation(*operator, a, b, state)?, closed(end)?))
        }
        Token::Name(name) => {
            let (a, end) = descend(sense, rest, levels, state)?;
            Some((sense.call(name, a, state)?, closed(end)?))
        }
        Token::Word { position, name } => {
            let (a, end) = descend(sense, rest, levels, state)?;
            Some((sense.call_word(*position, name, a, state)?, closed(end)?))
        }
        _ => None,
    }
}

// Every part comes to something.
struct Checking;

impl Sense for Checking {
    type Value = ();

    type State = ();

    ghost Seen = { Unit {0} };

    ghost view = { λ s. s };

    ghost means = { λ _. checking };

    fn number(&self, _value: i32, _state: &mut ()) -> Option<()> {
        Some(())
    }

    fn named(&self, _name: &Name, _state: &mut ()) -> Option<()> {
        Some(())
    }

    fn word(&self, _position: u8, _name: &Name, _state: &mut ()) -> Option<()> {
        Some(())
    }

    fn operation(&self, _operator: Operator, _a: (), _b: (), _state: &mut ()) -> Option<()> {
        Some(())
    }

    fn call(&self, _name: &Name, _a: (), _state: &mut ()) -> Option<()> {
        Some(())
    }

    fn call_word(&self, _position: u8, _name: &Name, _a: (), _state: &mut ()) -> Option<()> {
        Some(())
    }
}

// What stands behind the expression at the front, of fewer than so many levels.
pub fn check<'a>(tokens: &'a [Token], levels: u8) -> Option<&'a [Token]>
    ensures { option_map (λ x. x.now) result ≡ behind (expression checking levels (tt {0}) tokens.now) }
{
    let (_, rest) = descend(&Checking, tokens, levels, &mut ())?;
    Some(rest)
}
