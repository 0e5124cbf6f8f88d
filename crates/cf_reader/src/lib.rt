//! The tools with which grammars are read from lists of tokens.
#![tactic(auto)]

mod fault;
mod lists;
mod operations;
mod places;
mod read_stop;
mod tokens;
mod words;

pub use crate::fault::ParseFault;
pub use crate::lists::{more_bases, results};
pub use crate::operations::operation;
pub use crate::places::place_at;
pub use crate::read_stop::ReadStop;
pub use crate::tokens::{
    after_sign, after_word, expect_function, expect_literal, expect_name, expect_sign, expect_word,
    is_operation, literal_at_least, negated, spells,
};
pub use crate::words::{expect_base, truth};
