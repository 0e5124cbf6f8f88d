//! The tokens of a text.
#![tactic(auto)]

mod bytes;
mod digits;
mod edition;
mod fault;
mod front;
mod lexer;
mod token;

pub use crate::digits::{digits_len, literal};
pub use edition::edition_of;
pub use fault::LexFault;
pub use lexer::tokens;
pub use token::{Token, TokenKind, TokenList};
