//! Expressions of each language: their terms, and the texts of these, which one reader of all languages reads back.
#![tactic(auto)]

mod build;
mod expression;
mod laws;
mod mark;
mod numeral;
mod rows;
mod scope;
mod table;
mod term;
mod text;

pub use crate::expression::{Walk, base_of, is_small, not, term_of};
pub use crate::laws::texts_read_back;
pub use crate::mark::{Mark, bytes};
pub use crate::numeral::INT_END;
pub use crate::rows::table_of;
pub use crate::scope::Scope;
pub use crate::table::{
    Call, Checked, Choice, Divided, Form, Numerals, Orders, SetForms, Sign, Table,
};
pub use crate::term::Term;
pub use crate::text::put_term;
