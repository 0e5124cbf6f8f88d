//! The parts of a choose of edition 3, each checked where it stands.
ghost use Rattle.std.specs.Prelude.{◌≡◌, ◌++◌};
ghost use Rattle.cf_tree.specs.RawView.{raw_tree};
ghost use Rattle.cf_type.specs.FormParts.{outputs_checked as outputs_checked_of, related as related_of, given_form, aim_form};
ghost use Rattle.cf_type.specs.FormView.{form_of, given_form_of, aim_form_of, context_of};
ghost use Rattle.cf_program.specs.CheckAnswers.{CheckAnswer};
ghost use Rattle.cf_program.specs.Walk.{aim_expr};

use crate::bases;
use crate::build::bare;
use crate::context::Context;
use crate::form::{AimForm, Form, GivenForm};
use crate::linear::{found_given, found_in_choose};
use crate::names::output_fault;
use crate::scope::Scope;
use cf_program::TypeFault;
use cf_tree::{Aim, Base, Edition, Given, Param, Place, Raw, Sense, copy_params, without};

/// The outputs and behind them the hidden ones, where each has a new name.
pub fn outputs_checked(
    context: &Context,
    outputs: &[Param],
    hidden: &[Param],
) -> Result<Vec<Param>, TypeFault>
    ensures { CheckAnswer (λ ps. ps.items) result (outputs_checked_of (context_of context.now) (outputs.now ++ hidden.now)) }
{
    let mut all = copy_params(context.alloc, outputs)?;
    let mut more = copy_params(context.alloc, hidden)?;
    all.append(&mut more)?;
    match output_fault(context, Edition::Three, &all) {
        Ok(None) => Ok(all),
        Ok(Some(fault)) => Err(without(all, fault)),
        Err(_) => Err(without(all, TypeFault::NoMemory)),
    }
}

/// The relation of a choose at this place, where it is a truth value and linear.
#[tactic(auto, using(crate::proofs::FoundSteps::bends_where))]
pub fn related(
    context: &Context,
    scope: &Scope,
    outputs: &[Param],
    place: Place,
    raw: &Raw,
    form: Form,
) -> Result<Form, TypeFault>
    ensures { CheckAnswer form_of result (related_of (context_of context.now) scope.now outputs.now place (raw_tree raw.now) (form_of form)) }
{
    if !bases::is_one(Base::Bool, &form.bases) {
        return Err(without(form, TypeFault::Mismatch(place)));
    }
    match found_in_choose(context, scope, outputs, raw) {
        Ok(_) => Ok(form),
        Err(fault) => Err(without(form, fault)),
    }
}

/// What a choose takes as given at this place, where it is a truth value and linear.
#[tactic(auto, using(crate::proofs::FoundSteps::bends_where))]
pub fn given(
    context: &Context,
    scope: &Scope,
    place: Place,
    raw: &Raw,
    form: Form,
) -> Result<GivenForm, TypeFault>
    ensures { CheckAnswer given_form_of result (given_form (context_of context.now) scope.now place (raw_tree raw.now) (form_of form)) }
{
    if !bases::is_one(Base::Bool, &form.bases) {
        return Err(without(form, TypeFault::Mismatch(place)));
    }
    match found_given(context, scope, raw) {
        Ok(_) => {
            let next = form.next;
            let tree = Given::Where(bare(form));
            Ok(GivenForm { tree, next })
        }
        Err(fault) => Err(without(form, fault)),
    }
}

// The objective of that sense.
fn aimed(sense: Sense, form: Form) -> AimForm
    ensures { aim_form_of result ≡ record { tree = aim_expr sense (form_of form).tree; next = (form_of form).next } }
{
    let next = form.next;
    let objective = bare(form);
    let tree = match sense {
        Sense::Least => Aim::Least(objective),
        Sense::Greatest => Aim::Greatest(objective),
    };
    AimForm { tree, next }
}

/// The objective of a choose at this place, which aims at its least or greatest value, where it is one number or several, and linear.
#[tactic(auto, using(crate::proofs::FoundSteps::bends_where))]
pub fn aim(
    context: &Context,
    scope: &Scope,
    outputs: &[Param],
    place: Place,
    sense: Sense,
    raw: &Raw,
    form: Form,
) -> Result<AimForm, TypeFault>
    ensures { CheckAnswer aim_form_of result (aim_form (context_of context.now) scope.now outputs.now place sense (raw_tree raw.now) (form_of form)) }
{
    if !bases::are_numbers(&form.bases) {
        return Err(without(form, TypeFault::Mismatch(place)));
    }
    match found_in_choose(context, scope, outputs, raw) {
        Ok(_) => Ok(aimed(sense, form)),
        Err(fault) => Err(without(form, fault)),
    }
}
