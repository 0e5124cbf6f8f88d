//! A program that is read once and answers lines one by one: opened by the words of `run` or `exec`, and kept between calls.
#![tactic(auto)]

mod held;
mod opening;
mod parts;
mod reply;

pub use held::Held;
pub use opening::open_program;
pub use reply::reply_to;
