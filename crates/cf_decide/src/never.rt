//! Whether a relation never holds.
ghost use Rattle.std.specs.Prelude.{◌≡◌, ◌++◌, true, IfOk};
ghost use Rattle.cf_tree.specs.RelView.{rel_tree};
ghost use Rattle.cf_tree.specs.Relation.{IsTyped, IsLinear};
ghost use Rattle.cf_guide.specs.declared.guide.Outcome.TheVariants.{Closed};
ghost use Rattle.cf_read.specs.Reading.{NeverHolds};

use crate::scale::MOST_VARIABLES;
use cf_choose::ChooseFault;
use cf_guide::{Limits, Outcome};
use cf_refute::refute;
use cf_tree::{Base, NoMemory, Rel};
use std::alloc::Global;

/// Whether a search refutes a relation whose variables have these bases by level, those of `outputs` behind those of
/// `scope`: yes only where it never holds.
///
/// # Errors
/// `NoMemory` where memory ran out.
pub fn never_holds(
    alloc: Global,
    scope: &[Base],
    outputs: &[Base],
    rel: &Rel,
) -> Result<bool, NoMemory>
    requires typed { IsTyped (scope.now ++ outputs.now) (rel_tree rel.now) }
    requires linear { IsLinear (rel_tree rel.now) }
    ensures { IfOk result (λ b. b ≡ true → NeverHolds scope.now outputs.now (rel_tree rel.now)) }
{
    never_holds_within(alloc, scope, outputs, rel, Limits::never())
}

// The same within these limits.
pub(crate) fn never_holds_within(
    alloc: Global,
    scope: &[Base],
    outputs: &[Base],
    rel: &Rel,
    limits: Limits,
) -> Result<bool, NoMemory>
    requires typed { IsTyped (scope.now ++ outputs.now) (rel_tree rel.now) }
    requires linear { IsLinear (rel_tree rel.now) }
    ensures { IfOk result (λ b. b ≡ true → NeverHolds scope.now outputs.now (rel_tree rel.now)) }
{
    if scope.len() > MOST_VARIABLES || outputs.len() > MOST_VARIABLES {
        return Ok(false);
    }
    match refute(alloc, scope, outputs, rel, limits) {
        Ok(outcome) => Ok(is_closed(&outcome)),
        Err(ChooseFault::Refused(_)) => Ok(false),
        Err(ChooseFault::NoMemory) => Err(NoMemory),
    }
}

fn is_closed(outcome: &Outcome) -> bool
    ensures { result ≡ true → outcome.now ≡ Closed }
{
    match outcome {
        Outcome::Closed => true,
        Outcome::Open(_) => false,
    }
}
