//! The words of the command line.
#![tactic(auto)]

mod about;
mod command;
mod fault;
mod grammar;
mod language;
mod matches;
mod parsing;
mod size;
mod tests;
mod word;

pub use crate::command::{
    Command, CommandKind, Emitting, FileCommand, Flags, ReplyForm, Strictness,
};
pub use crate::fault::WordsFault;
pub use crate::parsing::parse;
