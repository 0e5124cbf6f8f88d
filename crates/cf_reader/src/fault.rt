//! Why no tree is read.
use cf_tree::Place;

/// Why no tree is read from a list of tokens.
#[derive(Clone, Copy, Debug, PartialEq, Eq)]
pub enum ParseFault {
    /// No tree within the depth limit spells the tokens. The place is that of a token up to and
    /// with which none begins, or the end.
    Syntax(Place),
    NoMemory,
}
