//! Code behind more variables, and that what a code gives is met on its path.
#![tactic(auto)]

mod behind;
mod forms;

ghost use Rattle.cf_shift.specs.Meeting.{GivenAreMet};
ghost use Rattle.cf_shift.specs.Shifted.{ShiftedAreSame};

pub use crate::behind::{first_level, shift, shift_all};

/// Behind more variables a code has the outcome and the peak that it has without them.
pub fn shifted_are_same()
    ensures { ShiftedAreSame }
{}

/// No number that a code gives is above the greatest that it meets.
pub fn given_are_met()
    ensures { GivenAreMet }
{}
