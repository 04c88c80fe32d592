use crate::token::Token;

// Where the line reader is: between tokens, inside a token that began at a place, or inside a comment.
#[derive(Clone, Copy, Debug, PartialEq, Eq)]
pub enum State {
    Between,
    Inside(usize),
    Comment,
}

// What a byte brings: the word that ends before it, by its first place, and the token that the byte is itself.
#[derive(Clone, Copy, Debug, PartialEq, Eq)]
pub struct Step {
    pub ended: Option<usize>,
    pub own: Option<Token>,
}
