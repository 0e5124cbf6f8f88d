//! A Clean between counted systems.
ghost use Rattle.std.specs.Prelude.{◌∷◌, [], OnOk};
ghost use Rattle.cf_linear.specs.Stages.{clean_stage, limits};
ghost use Rattle.cf_linear.specs.Views.{system_of};
ghost use Rattle.cf_elim.specs.Acts.{AreAdded};
ghost use Rattle.cf_elim.specs.Stages.{StageIs, IsReady, before_clean};
ghost use Rattle.cf_elim.specs.Ends.{CleanedIs};

use crate::act::Act;
use crate::acts::put;
use crate::counts::within_counts;
use crate::fault::ElimFault;
use crate::output::StepOutput;
use crate::stage::{Stage, State};
use cf_bounds::{Cleaned, clean};
use cf_linear::System;
use std::alloc::Global;

pub(crate) fn clean_stage(
    alloc: Global,
    acts: &mut Vec<Act>,
    system: System,
    tuples: u64,
) -> Result<Stage, ElimFault>
    requires { IsReady (system_of system) }
    ensures stage { StageIs (before_clean (system_of system) tuples) (clean_stage limits (before_clean (system_of system) tuples)) result }
    ensures acts { OnOk result (AreAdded acts.old.items (Act.Clean ∷ []) acts.new.items) }
{
    match within_counts(&system) {
        Ok(()) => {}
        Err(fault) => {
            drop(system);
            return Err(fault);
        }
    }
    match put(acts, Act::Clean) {
        Ok(()) => {}
        Err(_) => {
            drop(system);
            return Err(ElimFault::NoMemory);
        }
    }
    match clean(alloc, system) {
        Ok(cleaned) => cleaned_stage(alloc, cleaned, tuples),
        Err(_) => Err(ElimFault::NoMemory),
    }
}

// On to the cleaned system, if its counts are within the limits.
fn cleaned_stage(alloc: Global, cleaned: Cleaned, tuples: u64) -> Result<Stage, ElimFault>
    ensures { CleanedIs cleaned tuples result }
{
    match within_counts(&cleaned.system) {
        Ok(()) => Ok(Stage::Goes(
            State {
                system: cleaned.system,
                tuples,
                is_past_clean: true,
            },
            StepOutput {
                bounds: Vec::new(alloc),
                steps: cleaned.steps,
                back: Vec::new(alloc),
            },
        )),
        Err(fault) => {
            drop(cleaned);
            Err(fault)
        }
    }
}
