// The lines and tokens of a formula source: every byte of the source belongs to a token, a space, a comment or a line's end.
// The stream of a source has each line's tokens and then a mark for its end; a word of no form stands in it as such.
// The grammar of formula units stands on it.
#![tactic(auto)]

pub mod form;
pub mod lexer;
pub mod state;
pub mod token;

pub use form::form_of;
pub use lexer::{Lexer, read};
pub use token::{Operator, Token};
