//! Checks targets.
ghost use Rattle.std.specs.Prelude.{◌≡◌, Some, IfOk, IsErrOf};
ghost use Rattle.cf_tree.specs.CodeView.{code_tree};
ghost use Rattle.cf_tree.specs.Typing.{IsWellTyped};
ghost use Rattle.cf_typing.specs.Bases.{bases_of};
ghost use Rattle.cf_typing.specs.TypingAnswers.{AskedAnswer};

use crate::bases::check;
use crate::fault::TargetFault;
use cf_tree::{RawTarget, Target, without};
use std::alloc::Global;

/// The target of this tree.
///
/// # Errors
/// `BadTarget` exactly where the tree is not well typed (docs/FORMATS.md).
pub fn check_target(alloc: Global, raw: RawTarget) -> Result<Target, TargetFault>
    ensures same { IfOk result (λ t. t ≡ raw) }
    ensures typed { IfOk result IsWellTyped }
    ensures bad { IsErrOf result TargetFault.BadTarget → ¬ IsWellTyped raw }
{
    match check_raw(alloc, &raw) {
        Ok(()) => Ok(Target::new(raw)),
        Err(fault) => Err(without(raw, fault)),
    }
}

// Whether the code has the results under the parameters.
fn check_raw(alloc: Global, raw: &RawTarget) -> Result<(), TargetFault>
    ensures { AskedAnswer raw.now.results.items result (bases_of (code_tree raw.now.code) raw.now.params.items (Some raw.now.results.items)) }
{
    let mut scope = Vec::from_slice(alloc, &raw.params)?;
    check(alloc, &mut scope, &raw.code, &raw.results)
}
