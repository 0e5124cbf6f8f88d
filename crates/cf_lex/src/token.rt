//! Tokens and their places.
use cf_tree::{Place, Text};

/// What a token is.
#[derive(Drop)]
pub enum TokenKind {
    /// A run of digits, by its value.
    Literal(i128),
    /// A name or a reserved word.
    Word(Text),
    Sign(Text),
}

/// A token with the place of its first byte.
#[derive(Drop)]
pub struct Token {
    pub place: Place,
    pub kind: TokenKind,
}

/// The tokens of a text, and the place after its last byte.
#[derive(Drop)]
pub struct TokenList {
    pub list: Vec<Token>,
    pub end: Place,
}
