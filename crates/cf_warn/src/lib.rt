//! What the questions of `check` answer.
#![tactic(auto)]

mod answer;
mod ask;
mod classes;
mod coverage;
mod draft;
mod forms;
mod halves;
mod levels;
mod no_outputs;
mod none_question;
mod over;
mod regions;
mod rows;
mod tuples;
mod twice_question;
mod two_outputs;
mod used_parameters;

pub use crate::answer::{Doubt, ExistenceAnswer, UniquenessAnswer};
pub use crate::coverage::{Cover, covers};
pub use crate::no_outputs::{MOST_TUPLES, existence};
pub use crate::none_question::{Question, none};
pub use crate::over::is_over;
pub use crate::tuples::tuple_count;
pub use crate::twice_question::{twice, twice_outputs};
pub use crate::two_outputs::uniqueness;
pub use crate::used_parameters::parameters;
