//! Names that stand together, and which of them is the first that stands twice.
ghost use Rattle.std.specs.Prelude.{◌≡◌, map, IfOk};
ghost use Rattle.cf_type.specs.FormView.{context_of, summand_of};
ghost use Rattle.cf_program.specs.Walk.{taken, output_fault as output_fault_of};
ghost use Rattle.cf_program.specs.Names.{repeated as repeated_of};
ghost use Rattle.cf_tree.specs.Params.{names_of};

use crate::bases::may_be_output;
use crate::context::Context;
use crate::form::Summand;
use cf_program::TypeFault;
use cf_tree::{Edition, NoMemory, Param, Place, Text};

/// The place of the first name that equals one before it, or a constant.
pub fn repeated(
    context: &Context,
    names: &[Text],
    places: &[Place],
) -> Result<Option<Place>, NoMemory>
    ensures { IfOk result (λ o. o ≡ repeated_of (taken (context_of context.now)) names.now places.now) }
{
    let mut before = context.taken();
    let mut rest = places;
    for name in names {
        match rest.split_first() {
            None => return Ok(None),
            Some((place, more)) => {
                if before.add(name)? {
                    return Ok(Some(*place));
                }
                rest = more;
            }
        }
    }
    Ok(None)
}

/// The place of the first parameter whose name is that of one before it, or of a constant.
pub fn repeated_param(context: &Context, params: &[Param]) -> Result<Option<Place>, NoMemory>
    ensures { IfOk result (λ o. o ≡ repeated_of (taken (context_of context.now)) (names_of params.now) (map (λ p. p.place) params.now)) }
{
    let mut before = context.taken();
    for param in params {
        if before.add(&param.name)? {
            return Ok(Some(param.place));
        }
    }
    Ok(None)
}

/// The place of the first variable of a pattern whose name is that of one before it, or of a
/// constant.
pub fn repeated_summand(context: &Context, summands: &[Summand]) -> Result<Option<Place>, NoMemory>
    ensures { IfOk result (λ o. o ≡ repeated_of (taken (context_of context.now)) (map (λ x. x.name) (map summand_of summands.now))
        (map (λ x. x.place) (map summand_of summands.now))) }
{
    let mut before = context.taken();
    for summand in summands {
        if before.add(&summand.name)? {
            return Ok(Some(summand.place));
        }
    }
    Ok(None)
}

/// What is wrong with the outputs of a choose of this edition.
pub fn output_fault(
    context: &Context,
    edition: Edition,
    outputs: &[Param],
) -> Result<Option<TypeFault>, NoMemory>
    ensures { IfOk result (λ o. o ≡ output_fault_of edition (taken (context_of context.now)) outputs.now) }
{
    let mut before = context.taken();
    for output in outputs {
        if before.add(&output.name)? {
            return Ok(Some(TypeFault::DuplicateName(output.place)));
        }
        if !may_be_output(edition, output.base) {
            return Ok(Some(TypeFault::Mismatch(output.place)));
        }
    }
    Ok(None)
}
