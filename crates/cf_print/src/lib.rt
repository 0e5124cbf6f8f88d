//! What printed programs of all languages are made of: pieces, names, helpers, and the source as a comment.
#![tactic(auto)]

mod comment;
mod count;
mod head;
mod helper;
mod language;
mod laws;
mod names;
mod pieces;
mod words;

pub use crate::count::{next, sum_of};
pub use crate::head::head_of;
pub use crate::helper::{when, with_helper};
pub use crate::language::Language;
pub use crate::laws::names_are_free;
pub use crate::names::{is_numbered, may_name, new_name};
pub use crate::pieces::{
    copies, joined_text, put_joined, put_pieces, put_repeated, text_of_pieces,
};
pub use crate::words::{C_WORDS, JAVASCRIPT_WORDS, PYTHON_WORDS, RUST_WORDS, words_of};
