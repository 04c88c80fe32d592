// Which constants need which.
ghost use Rattle.std.specs.Prelude.{◌≡◌, ◌+◌, ◌≤◌, ◌++◌, length};
ghost use Rattle.bounded.specs.Held.{held};
ghost use Rattle.values.specs.Needed.{constants, lines, names, mentions, needs_of, needs};

use bounded::Bounded;
use grammar::{Declaration, Kind, expression_of};
use names::Name;
use order::Need;
use tokens::Token;

// Fills the list with the constants among the declarations.
pub fn keep_constants(declarations: &[Declaration], out: &mut Bounded<Declaration, 12>)
    requires { length declarations.now ≤ 12 }
    ensures { held out.new ≡ constants declarations.now }
{
    out.clear();
    for d in declarations {
        if d.kind == Kind::Constant {
            let _ = out.push(*d);
        }
    }
}

// Fills the list with the lines of the constants.
pub fn keep_lines(constants: &Bounded<Declaration, 12>, out: &mut Bounded<u16, 12>)
    ensures { held out.new ≡ lines (held constants.now) }
{
    out.clear();
    for d in constants.as_slice() {
        let _ = out.push(d.line);
    }
}

fn is_named(name: &Name, token: &Token) -> bool
    ensures { result ≡ names name.now.bytes token.now }
{
    match token {
        Token::Name(n) => n == name,
        _ => false,
    }
}

fn is_mentioned(name: &Name, tokens: &[Token]) -> bool
    ensures { result ≡ mentions name.now.bytes tokens.now }
{
    tokens.iter().any(|t| is_named(name, t))
}

// Adds the needs of the constant at place i.
fn add_needs(
    item: usize,
    tokens: &[Token],
    constants: &[Declaration],
    out: &mut Bounded<Need<u16>, 144>,
)
    requires { length (held out.old) + length constants.now ≤ 144 }
    ensures adds { held out.new ≡ held out.old ++ needs_of item tokens.now constants.now }
    ensures few { length (held out.new) ≤ length (held out.old) + length constants.now }
{
    for d in constants {
        if is_mentioned(&d.name, tokens) {
            let key = d.line;
            let _ = out.push(Need { item, key });
        }
    }
}

// Fills the list with the needs of all constants.
pub fn keep_needs(
    tokens: &[Token],
    constants: &Bounded<Declaration, 12>,
    out: &mut Bounded<Need<u16>, 144>,
)
    ensures { held out.new ≡ needs tokens.now (held constants.now) 0 (held constants.now) }
{
    out.clear();
    for (i, d) in constants.as_slice().iter().enumerate() {
        add_needs(i, expression_of(tokens, d), constants.as_slice(), out);
    }
}
