//! What a step leaves, or why it does not apply.
ghost use Rattle.std.specs.Prelude.{◌≡◌, [], map};
ghost use Rattle.cf_linear.specs.Views.{system_of};
ghost use Rattle.cf_equation.specs.Equations.{reduced};
ghost use Rattle.cf_elim.specs.Stages.{made_answer};
ghost use Rattle.cf_cert.specs.Stepping.{fault_of};

use crate::verdict::Why;
use cf_elim::{ElimFault, StepOutput};
use cf_equation::Reduced;
use cf_linear::System;
use std::alloc::Global;

/// The system that a step leaves, and what the step makes.
#[derive(Drop)]
pub struct Next {
    pub system: System,
    pub made: StepOutput,
}

/// Why a step is not applied: it does not apply, or memory ran out.
#[derive(Clone, Copy, Debug, PartialEq, Eq)]
pub enum ApplyFault {
    Rejected(Why),
    NoMemory,
}

// What a step with an equation leaves.
pub(crate) fn after_equation(alloc: Global, answer: Reduced) -> Next
    ensures { made_answer (system_of result.system) result.made ≡ reduced answer }
{
    Next {
        system: answer.system,
        made: StepOutput {
            bounds: Vec::new(alloc),
            steps: answer.steps,
            back: answer.back,
        },
    }
}

// The refusal of an elimination as that of a step.
pub(crate) fn refusal_of(fault: ElimFault) -> ApplyFault
    ensures { result ≡ fault_of fault }
{
    match fault {
        ElimFault::Refused(refusal) => ApplyFault::Rejected(Why::Refused(refusal)),
        ElimFault::NoMemory => ApplyFault::NoMemory,
    }
}
