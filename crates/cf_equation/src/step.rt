//! One step of the elimination with the first equation.
ghost use Rattle.std.specs.Prelude.{◌≡◌, ◌≢◌, ◌<◌, [], true, false, length, Err, IfOk};
ghost use Rattle.cf_linear.specs.Keep.{Formed, Reaches, Differ};
ghost use Rattle.cf_linear.specs.Solved.{Owes};
ghost use Rattle.cf_linear.specs.Views.{system_of};
ghost use Rattle.cf_equation.specs.Equations.{reduced, present_of, first_present, equation_answer, equation_passes};

use crate::end::end;
use crate::merge::merge;
use crate::unknowns::Present;
use cf_linear::{Back, RowFault, Step, System};
use std::alloc::Global;

/// The system that an equation step leaves, the lets and needs that it makes, and how the unknowns
/// that went are computed, in this order.
#[derive(Drop)]
pub struct Reduced {
    pub system: System,
    pub steps: Vec<Step>,
    pub back: Vec<Back>,
}

/// A Merge of the first two unknowns of the first equation, or its end where it has one. `found` are
/// its first unknowns; there is one at least, and the unknowns are all different. Past exactly where
/// a product or a sum that makes an entry of a new row passes the limit.
pub fn step_first(alloc: Global, system: System, found: Present) -> Result<Reduced, RowFault>
    requires formed { Formed (system_of system) }
    requires differ { Differ system.unknown.items }
    requires some { 0 < length system.equations.items }
    requires found { found ≡ present_of (first_present (system_of system)) }
    requires holds { first_present (system_of system) ≢ [] }
    ensures next { IfOk result (λ r. reduced r ≡ equation_answer (system_of system) (first_present (system_of system))) }
    ensures owes { IfOk result (λ r. Owes (system_of system) (reduced r)) }
    ensures reaches { IfOk result (λ r. Reaches (system_of system) (reduced r)) }
    ensures formed { IfOk result (λ r. Formed (system_of r.system)) }
    ensures differ { IfOk result (λ r. Differ r.system.unknown.items) }
    ensures fits { IfOk result (λ r. equation_passes (system_of system) (first_present (system_of system)) ≡ false) }
    ensures past { result ≡ Err RowFault.Past → equation_passes (system_of system) (first_present (system_of system)) ≡ true }
{
    match found {
        Present::Nothing => unreachable!(),
        Present::One(u) => end(alloc, system, u),
        Present::Several(x, y) => merge(alloc, system, x, y),
    }
}
