//! The elimination.
ghost use Rattle.std.specs.Prelude.{◌≡◌, Err, IfOk};
ghost use Rattle.cf_linear.specs.Keep.{Formed, Differ};
ghost use Rattle.cf_linear.specs.Stages.{run, limits, solved, refused};
ghost use Rattle.cf_linear.specs.Views.{system_of};
ghost use Rattle.cf_elim.specs.Eliminated.{EndIs};

use crate::case::parts_of;
use crate::fault::ElimFault;
use crate::output::RunOutput;
use crate::solved::SolvedCase;
use crate::stage::{Stage, State, next_stage};
use cf_linear::System;
use std::alloc::Global;

/// The whole elimination of the system, whose unknowns are all different: its case, or the refusal
/// that it meets first.
pub fn eliminate(alloc: Global, system: System) -> Result<SolvedCase, ElimFault>
    requires formed { Formed (system_of system) }
    requires differ { Differ system.unknown.items }
    ensures first { IfOk result (λ c. system_of c.first ≡ system_of system) }
    ensures end { EndIs (run limits (system_of system)).end result }
{
    let first = match system.try_copy(alloc) {
        Ok(first) => first,
        Err(_) => return Err(ElimFault::NoMemory),
    };
    let mut whole = RunOutput::none(alloc);
    let mut acts = Vec::new(alloc);
    let mut current = State {
        system,
        tuples: 1,
        is_past_clean: false,
    };
    for taken in 0..u64::MAX {
        match next_stage(alloc, &mut acts, current) {
            Ok(Stage::Goes(next, made)) => {
                match whole.add(made) {
                    Ok(()) => current = next,
                    Err(_) => {
                        drop(next);
                        drop(acts);
                        drop(whole);
                        drop(first);
                        return Err(ElimFault::NoMemory);
                    }
                }
            }
            Ok(Stage::Ends) => return Ok(SolvedCase::new(parts_of(first, whole, acts))),
            Err(fault) => {
                drop(acts);
                drop(whole);
                drop(first);
                return Err(fault);
            }
        }
    }
    drop(current);
    drop(acts);
    drop(whole);
    drop(first);
    Err(ElimFault::NoMemory)
}
