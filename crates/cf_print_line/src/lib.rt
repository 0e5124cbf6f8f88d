//! Lines of statements, and how functions begin and end, in each language.
#![tactic(auto)]

mod called;
mod giving;
mod heads;
pub mod layout;
mod pattern;

pub use crate::called::{Called, about_main, about_nones, end_of};
pub use crate::giving::{FileCall, owned_text, put_call, put_give, with_addresses};
pub use crate::heads::{
    C_BODY, FAILURE, MAY_FAIL, all_parameters, head_text, parameter_text, part_closing,
    part_opening, results_text,
};
pub use crate::layout::base_text;
pub use crate::pattern::line_text;
