// The form of a word: an operator, a name, an import word or a literal, or none.
ghost use Rattle.std.specs.Prelude.{◌≡◌, ◌≤◌, length};
ghost use Rattle.tokens.specs.Forms.{sign, operator as operator_of, name_of, named, worded, decimal, magnitude, upward, downward, literal, form};

use crate::token::{Operator, Token};
use names::Name;

fn sign(b: u8) -> Option<Token>
    ensures { result ≡ sign b }
{
    let operator = match b {
        b'+' => Operator::Add,
        b'-' => Operator::Subtract,
        b'*' => Operator::Multiply,
        b'/' => Operator::Divide,
        b'<' => Operator::Less,
        b'=' => Operator::Equal,
        _ => return None,
    };
    Some(Token::Operator(operator))
}

fn operator(text: &[u8]) -> Option<Token>
    ensures { result ≡ operator_of text.now }
{
    match text {
        [b] => sign(*b),
        _ => None,
    }
}

// The name that a text writes.
fn name_of(text: &[u8]) -> Option<Name>
    ensures { result ≡ name_of text.now }
{
    Name::from_text(text).ok()
}

fn name(text: &[u8]) -> Option<Token>
    ensures { result ≡ named text.now }
{
    name_of(text).map(Token::Name)
}

fn import_word(text: &[u8]) -> Option<Token>
    ensures { result ≡ worded text.now }
{
    match text {
        [d @ b'1'..=b'4', b':', rest @ ..] => {
            let position = *d - b'0';
            let name = name_of(rest)?;
            Some(Token::Word { position, name })
        }
        _ => None,
    }
}

// The number that up to ten digits write.
fn decimal_of(digits: &[u8]) -> Option<u64>
    requires { length digits.now ≤ 10 }
    ensures { result ≡ decimal 0 digits.now }
{
    // kept as a loop: a `try_fold` would say its bound in the closure
    let mut n: u64 = 0;
    for b in digits {
        if !b.is_ascii_digit() {
            return None;
        }
        n = n * 10 + u64::from(*b - b'0');
    }
    Some(n)
}

fn magnitude_of(digits: &[u8]) -> Option<u64>
    ensures { result ≡ magnitude digits.now }
{
    if digits.is_empty() || digits.len() > 10 {
        return None;
    }
    decimal_of(digits)
}

fn upward_of(n: Option<u64>) -> Option<Token>
    ensures { result ≡ upward n }
{
    let value = i32::try_from(n?).ok()?;
    Some(Token::Number(value))
}

fn downward_of(n: Option<u64>) -> Option<Token>
    ensures { result ≡ downward n }
{
    let n = i64::try_from(n?).ok()?;
    let value = i32::try_from(-n).ok()?;
    Some(Token::Number(value))
}

fn number(text: &[u8]) -> Option<Token>
    ensures { result ≡ literal text.now }
{
    match text {
        [b'-', digits @ ..] => downward_of(magnitude_of(digits)),
        _ => upward_of(magnitude_of(text)),
    }
}

// The token that a word is.
pub fn form_of(text: &[u8]) -> Token
    ensures { result ≡ form text.now }
{
    operator(text)
        .or_else(|| name(text))
        .or_else(|| import_word(text))
        .or_else(|| number(text))
        .unwrap_or(Token::NoForm)
}
