//! What the program does, over any shelf, input, sinks and passes.
#![tactic(auto)]

mod top;

pub use cf_answer::{Fault, Status};
pub use top::{answer_words, comfusy};
