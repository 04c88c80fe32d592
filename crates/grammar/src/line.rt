// What a line says: nothing, one declaration, or that it is wrong.
ghost use Rattle.std.specs.Prelude.{◌≡◌, ◌<◌, Bool};
ghost use Rattle.std.specs.List.{list_all};
ghost use Rattle.std.specs.Str.{bytes_eq};
ghost use Rattle.grammar.specs.Line.{name_of, keyword, equates, opens, formless, open_behind, any_formless, deep, constant, all_constant, placed, whole, equated, naming, declaring, opening, said};

use crate::declaration::{Declared, Kind};
use crate::expression::check;
use crate::flaw::Flaw;
use names::Name;
use std::iter::once;
use tokens::{Operator, Token};

pub const X: [u8; 8] = *b"x\0\0\0\0\0\0\0";

pub const CONST: [u8; 8] = *b"const\0\0\0";

pub const FUN: [u8; 8] = *b"fun\0\0\0\0\0";

pub const FORMULA: [u8; 8] = *b"formula\0";

// Whether a name has these eight bytes; kept beside the names' equality, since no name can be a constant.
pub fn spells(name: &Name, bytes: &[u8; 8]) -> bool
    ensures { result ≡ bytes_eq name.now.bytes bytes.now }
{
    name.bytes() == *bytes
}

fn name_in(token: &Token) -> Option<Name>
    ensures { result ≡ name_of token.now }
{
    match token {
        Token::Name(name) => Some(*name),
        _ => None,
    }
}

// The kind that a word begins a declaration of.
fn keyword(word: Name) -> Option<Kind>
    ensures { result ≡ keyword word }
{
    match word.bytes() {
        CONST => Some(Kind::Constant),
        FUN => Some(Kind::Function),
        _ => None,
    }
}

fn is_equals(token: &Token) -> bool
    ensures { result ≡ equates token.now }
{
    matches!(token, Token::Operator(Operator::Equal))
}

pub fn is_open(token: &Token) -> bool
    ensures { result ≡ opens token.now }
{
    matches!(token, Token::Open)
}

fn has_no_form(token: &Token) -> bool
    ensures { result ≡ formless token.now }
{
    matches!(token, Token::NoForm)
}

fn is_constant(called: bool, token: &Token) -> bool
    ensures { result ≡ constant called token.now }
{
    match token {
        Token::Name(name) => !called && !spells(name, &X),
        Token::Word { .. } => !called,
        _ => true,
    }
}

fn opened(token: &Token, count: usize) -> usize
    requires { count < 9 }
    ensures { result ≡ open_behind token.now count }
{
    match token {
        Token::Open => count + 1,
        Token::Close => count.saturating_sub(1),
        _ => count,
    }
}

fn any_no_form(tokens: &[Token]) -> bool
    ensures { result ≡ any_formless tokens.now }
{
    tokens.iter().any(has_no_form)
}

fn opens_ninth(tokens: &[Token]) -> bool
    ensures { result ≡ deep 0 tokens.now }
{
    // kept as a loop: each token is judged by how many parentheses are open before it
    let mut count = 0;
    for t in tokens {
        count = opened(t, count);
        if count >= 9 {
            return true;
        }
    }
    false
}

// Whether a test holds of every token, by whether it is called and itself; one is called where it stands behind an opening parenthesis.
pub fn all_called<F: Fn(bool, &Token) -> bool>(tokens: &[Token], test: F) -> bool
    requires { F.IsAlwaysCallable test }
    ensures { (holds : Bool → Token → Bool) → ((called : Bool) (t : _) (b : Bool) → F.post test called t b → b ≡ holds called t.now) → result ≡ list_all (λ p. holds p.0 p.1) (placed tokens.now) }
{
    once(false)
        .chain(tokens.iter().map(is_open))
        .zip(tokens)
        .all(|(called, token)| test(called, token))
}

fn all_constant(tokens: &[Token]) -> bool
    ensures { result ≡ all_constant tokens.now }
{
    all_called(tokens, is_constant)
}

fn is_whole(tokens: &[Token]) -> bool
    ensures { result ≡ whole tokens.now }
{
    check(tokens, 9).is_some_and(|rest| rest.is_empty())
}

fn after_name(kind: Kind, name: Name, tokens: &[Token]) -> Option<Declared>
    ensures { result ≡ equated kind name tokens.now }
{
    let (token, body) = tokens.split_first()?;
    if is_equals(token) && is_whole(body) && (kind == Kind::Function || all_constant(body)) {
        return Some(Declared { kind, name });
    }
    None
}

fn after_keyword(kind: Kind, tokens: &[Token]) -> Option<Declared>
    ensures { result ≡ naming kind tokens.now }
{
    let (token, rest) = tokens.split_first()?;
    after_name(kind, name_in(token)?, rest)
}

fn declaration(tokens: &[Token]) -> Option<Declared>
    ensures { result ≡ declaring tokens.now }
{
    let (token, rest) = tokens.split_first()?;
    after_keyword(keyword(name_in(token)?)?, rest)
}

fn is_opening(tokens: &[Token]) -> bool
    ensures { result ≡ opening tokens.now }
{
    match tokens {
        [token] => name_in(token).is_some_and(|name| spells(&name, &FORMULA)),
        _ => false,
    }
}

// What the line of that number declares, if it declares anything.
pub fn judge(line: u16, tokens: &[Token]) -> Result<Option<Declared>, Flaw>
    ensures { result ≡ said line tokens.now }
{
    if line == 1 {
        return if is_opening(tokens) {
            Ok(None)
        } else {
            Err(Flaw::Opening)
        };
    }
    if any_no_form(tokens) {
        return Err(Flaw::Formless);
    }
    if opens_ninth(tokens) {
        return Err(Flaw::TooMuch);
    }
    if tokens.is_empty() {
        return Ok(None);
    }
    declaration(tokens).map(Some).ok_or(Flaw::NoDeclaration)
}
