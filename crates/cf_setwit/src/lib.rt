//! The codes that compute the sets of a choose: input regions, fresh numbers, and output sets from
//! pieces of both.
#![tactic(auto)]

mod lists;
mod masks;
mod names;
mod pieces;
mod regions;
mod several;

pub use crate::lists::push_if;
pub use crate::names::ColumnLevels;
pub use crate::pieces::{Sources, fresh_code, set_code};
pub use crate::regions::{region_code, size_code};
pub use crate::several::sum_of;
