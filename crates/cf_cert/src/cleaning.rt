//! A Clean whose rows and columns are counted before it.
ghost use Rattle.std.specs.Prelude.{◌≡◌, [], map};
ghost use Rattle.cf_linear.specs.Stages.{limits};
ghost use Rattle.cf_linear.specs.Views.{system_of};
ghost use Rattle.cf_bounds.specs.CleanAnswers.{cleaned};
ghost use Rattle.cf_elim.specs.Stages.{IsReady, made_answer};
ghost use Rattle.cf_cert.specs.Applying.{clean_applied};
ghost use Rattle.cf_cert.specs.Stepping.{ApplyIs};

use crate::counting::within_clean;
use crate::next::{ApplyFault, Next, refusal_of};
use cf_bounds::{Cleaned, clean};
use cf_elim::StepOutput;
use cf_linear::System;
use std::alloc::Global;

// Rows without unknowns become needs, and the inequalities are tightened.
pub(crate) fn clean_rows(alloc: Global, system: System) -> Result<Next, ApplyFault>
    requires { IsReady (system_of system) }
    ensures { ApplyIs (clean_applied limits (system_of system)) result }
{
    match within_clean(&system) {
        Ok(()) => {}
        Err(fault) => {
            drop(system);
            return Err(refusal_of(fault));
        }
    }
    match clean(alloc, system) {
        Ok(cleaned) => Ok(after_clean(alloc, cleaned)),
        Err(_) => Err(ApplyFault::NoMemory),
    }
}

// What a Clean leaves.
fn after_clean(alloc: Global, answer: Cleaned) -> Next
    ensures { made_answer (system_of result.system) result.made ≡ cleaned answer }
{
    Next {
        system: answer.system,
        made: StepOutput {
            bounds: Vec::new(alloc),
            steps: answer.steps,
            back: Vec::new(alloc),
        },
    }
}
