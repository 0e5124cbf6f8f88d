//! A solved case of what all steps made.
ghost use Rattle.std.specs.Prelude.{◌≡◌, reverse};

use crate::act::Act;
use crate::output::RunOutput;
use crate::solved::CaseParts;
use cf_linear::System;

// The system with what all steps made, and these steps.
pub(crate) fn parts_of(first: System, whole: RunOutput, acts: Vec<Act>) -> CaseParts
    ensures first { result.first ≡ first }
    ensures bounds { result.bounds.items ≡ whole.bounds.items }
    ensures steps { result.steps.items ≡ whole.steps.items }
    ensures back { result.back.items ≡ reverse whole.later.items }
    ensures acts { result.acts.items ≡ acts.items }
{
    let RunOutput {
        bounds,
        steps,
        later,
    } = whole;
    let mut back = later;
    back.reverse();
    CaseParts {
        first,
        bounds,
        steps,
        back,
        acts,
    }
}
