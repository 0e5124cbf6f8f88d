//! One step of a steps file on a system.
ghost use Rattle.std.specs.Prelude.{◌≡◌, IfOk};
ghost use Rattle.cf_linear.specs.Stages.{limits};
ghost use Rattle.cf_linear.specs.Views.{system_of};
ghost use Rattle.cf_elim.specs.Stages.{IsReady};
ghost use Rattle.cf_cert.specs.Applying.{apply, IsWithinAct};
ghost use Rattle.cf_cert.specs.Stepping.{ApplyIs};

use crate::bounding::{drop_unknown, search_side};
use crate::cleaning::clean_rows;
use crate::ending::end_equation;
use crate::mixing::mix_unknowns;
use crate::next::{ApplyFault, Next};
use cf_linear::{MergeFactors, System};
use cf_steps::Act;
use std::alloc::Global;

/// The step on the system, where the searches before it have so many tuples. The system's rows have forms
/// and its unknowns are all different, and so are those of the system that the step leaves.
///
/// # Errors
/// `Rejected` exactly where the step does not apply, with the first reason, and `NoMemory` where memory
/// ran out. It is asked for behind the names of a step, the pairs of a drop, the tuples of a search and the
/// rows and columns that a step leaves.
pub fn apply(alloc: Global, system: System, tuples: u64, act: Act) -> Result<Next, ApplyFault>
    requires ready { IsReady (system_of system) }
    requires within { IsWithinAct act }
    ensures applied { ApplyIs (apply limits tuples (system_of system) act) result }
    ensures ready { IfOk result (λ n. IsReady (system_of n.system)) }
{
    step(alloc, system, tuples, act)
}

// The same, each step by a call of its own.
fn step(alloc: Global, system: System, tuples: u64, act: Act) -> Result<Next, ApplyFault>
    requires ready { IsReady (system_of system) }
    requires within { IsWithinAct act }
    ensures { ApplyIs (apply limits tuples (system_of system) act) result }
{
    match act {
        Act::Clean => clean_rows(alloc, system),
        Act::Mix { x, y, a, b, c, d } => {
            let factors = MergeFactors {
                s: a,
                m: b,
                t: c,
                n: d,
            };
            mix_unknowns(alloc, system, x, y, factors)
        }
        Act::Last(index) => end_equation(alloc, system, index),
        Act::Search { column, lower } => search_side(alloc, system, tuples, column, lower),
        Act::Drop(column) => drop_unknown(alloc, system, column),
    }
}
