//! Runs target code on values, reads lines of values, and writes replies.
#![tactic(auto)]

mod braces;
mod fault;
mod given;
mod joining;
mod kind;
mod lent;
mod line;
mod number;
mod operate;
mod quick;
mod replies;
mod run;
mod runs;
mod search;
mod value;

pub use crate::fault::LineFault;
pub use crate::line::read_line;
pub use crate::operate::{compare, divide, number_in, remain};
pub use crate::replies::{put_reply, put_value, put_values, reply};
pub use crate::run::{run_code, run_on};
pub use crate::value::{Outcome, Value};
