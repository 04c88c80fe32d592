// The line reader.
ghost use Rattle.std.specs.Prelude.{◌≡◌, ◌+◌, ◌≤◌, ◌++◌, length, IfSome, if◌then◌else◌, nat_le};
ghost use Rattle.std.specs.Option.{option_to_list};
ghost use Rattle.names.specs.Refusals.{answer};
ghost use Rattle.bounded.specs.Held.{held};
ghost use Rattle.tokens.specs.Stream.{single, next, ended, alone, word, stream};

use crate::form::form_of;
use crate::state::{State, Step};
use crate::token::Token;
use bounded::Bounded;
use names::Refusal;

// The token that a parting byte is itself.
fn single_of(b: u8) -> Option<Token>
    ensures { result ≡ single b }
{
    match b {
        b'\n' => Some(Token::LineEnd),
        b'(' => Some(Token::Open),
        b')' => Some(Token::Close),
        _ => None,
    }
}

#[derive(Debug, PartialEq, Eq, Drop)]
pub struct Lexer {
    state: State,
}

impl Lexer {
    // A reader at the start of a source.
    pub fn new() -> Lexer
        ensures { result.state ≡ State.Between }
    {
        Lexer {
            state: State::Between,
        }
    }

    // Moves over the byte at a place.
    pub fn step(&mut self, i: usize, b: u8) -> Step
        ensures moves { self.new.state ≡ next self.old.state i b }
        ensures ends { result.ended ≡ ended self.old.state b }
        ensures brings { result.own ≡ alone self.old.state b }
    {
        let (state, ended, own) = match (self.state, b) {
            (State::Between, b';') => (State::Comment, None, None),
            (State::Between, b'\n' | b' ' | b'(' | b')') => (State::Between, None, single_of(b)),
            (State::Between, _) => (State::Inside(i), None, None),
            (State::Inside(start), b';') => (State::Comment, Some(start), None),
            (State::Inside(start), b'\n' | b' ' | b'(' | b')') => (
                State::Between,
                Some(start),
                single_of(b),
            ),
            (State::Inside(start), _) => (State::Inside(start), None, None),
            (State::Comment, b'\n') => (State::Between, None, Some(Token::LineEnd)),
            (State::Comment, _) => (State::Comment, None, None),
        };
        self.state = state;
        Step { ended, own }
    }
}

// Puts the word from where it began up to place i behind the tokens.
fn put_word(source: &[u8], i: usize, ended: Option<usize>, tokens: &mut Bounded<Token, 513>)
    requires within { i ≤ length source.now }
    requires begun { IfSome ended (λ start. start ≤ i) }
    requires room { length (held tokens.old) + length (word source.now i ended) ≤ 513 }
    ensures { held tokens.new ≡ held tokens.old ++ word source.now i ended }
{
    if let Some(start) = ended {
        let _ = tokens.push(form_of(&source[start..i]));
    }
}

// Puts a token, if there is one, behind the tokens.
fn put(own: Option<Token>, tokens: &mut Bounded<Token, 513>)
    requires { length (held tokens.old) + length (option_to_list own) ≤ 513 }
    ensures { held tokens.new ≡ held tokens.old ++ option_to_list own }
{
    if let Some(token) = own {
        let _ = tokens.push(token);
    }
}

// Fills the list with the tokens of a source; a source over 512 bytes is not read.
pub fn read(source: &[u8], tokens: &mut Bounded<Token, 513>) -> Result<(), Refusal>
    ensures answered { answer result ≡ (if nat_le (length source.now) 512 then 0 else 12) }
    ensures after { held tokens.new ≡ (if nat_le (length source.now) 512 then stream source.now else held tokens.old) }
{
    if source.len() > 512 {
        return Err(Refusal::SourceTooLong);
    }
    let mut lexer = Lexer::new();
    tokens.clear();
    for (i, b) in source.iter().enumerate() {
        let step = lexer.step(i, *b);
        put_word(source, i, step.ended, tokens);
        put(step.own, tokens);
    }
    let last = lexer.step(source.len(), b'\n');
    put_word(source, source.len(), last.ended, tokens);
    put(last.own, tokens);
    Ok(())
}
