//! One step of the elimination.
ghost use Rattle.std.specs.Prelude.{OnOk};
ghost use Rattle.cf_linear.specs.Stages.{stage, limits};
ghost use Rattle.cf_linear.specs.Views.{system_of};
ghost use Rattle.cf_elim.specs.Acts.{AreAdded, acts_at};
ghost use Rattle.cf_elim.specs.Stages.{state_of, StageIs, IsReady};

use crate::act::Act;
use crate::bound::bound_stage;
use crate::clean::clean_stage;
use crate::equation::equation_stage;
use crate::fault::ElimFault;
use crate::output::StepOutput;
use cf_linear::System;
use std::alloc::Global;

/// A system on its way, the number of search tuples so far, and whether the next step is not a Clean.
#[derive(Drop)]
pub struct State {
    pub system: System,
    pub tuples: u64,
    pub is_past_clean: bool,
}

/// The next state with what the step made, or the end.
#[derive(Drop)]
pub enum Stage {
    Goes(State, StepOutput),
    Ends,
}

// The next step, which is added to the steps: a Clean, an equation step while an equation is left, or a
// Bound step while an unknown is.
pub(crate) fn next_stage(
    alloc: Global,
    acts: &mut Vec<Act>,
    current: State,
) -> Result<Stage, ElimFault>
    requires { IsReady (system_of current.system) }
    ensures stage { StageIs (state_of current) (stage limits (state_of current)) result }
    ensures acts { OnOk result (AreAdded acts.old.items (acts_at (state_of current)) acts.new.items) }
{
    let State {
        system,
        tuples,
        is_past_clean,
    } = current;
    if !is_past_clean {
        return clean_stage(alloc, acts, system, tuples);
    }
    if !system.equations.is_empty() {
        return equation_stage(alloc, acts, system, tuples);
    }
    if system.unknown.is_empty() {
        drop(system);
        return Ok(Stage::Ends);
    }
    bound_stage(alloc, acts, system, tuples)
}
