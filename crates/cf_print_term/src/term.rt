//! Printed expressions, as trees.
use crate::table::{Call, Choice, Sign};
use cf_tree::Text;

/// An expression of a language.
#[cycle(term)]
#[derive(Drop)]
pub enum Term {
    /// A name, a numeral or another word.
    Word(Text),
    Before(Sign, Box<Term>),
    Between(Sign, Box<Term>, Box<Term>),
    Call(Call, Vec<Term>),
    /// Three parts in the order in which they are printed.
    Choice(Choice, Box<Term>, Box<Term>, Box<Term>),
}
