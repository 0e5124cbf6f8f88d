//! The condition of arms.
ghost use Rattle.std.specs.Prelude.{◌≡◌, ◌<◌, ◌^◌, length, map, IfOk};
ghost use Rattle.cf_tree.specs.CodeView.{item_tree, item_trees, arm_tree, arm_trees};
ghost use Rattle.cf_condition.specs.Conditions.{if_written as if_is_written, bound as bound_walk, needed as needed_walk, step_in, items_in, arm_in, arms_in, all_in, written, ConditionAnswer};
ghost use Rattle.cf_condition.specs.FormView.{form_tree, walk_tree, rel_option};

use crate::codes::form_of;
use crate::form::{Form, scope_forms, truth};
use crate::pairing::{Pairing, paired};
use cf_tree::{Arm, Base, Item, NoMemory, Rel};
use std::alloc::Global;

/// The condition of arms over a scope: a linear relation that holds exactly where the needs of some arm hold, and that is well typed
/// where the lets and needs have a spelling. None where an arm searches, or where a let or a need has no form in a relation.
///
/// # Errors
/// `NoMemory` where memory ran out.
#[tactic(auto, using(crate::proofs::LinearLaws::answer_is))]
pub fn condition(alloc: Global, scope: &[Base], arms: &[Arm]) -> Result<Option<Rel>, NoMemory>
    requires { length scope.now < 2 ^ 32 }
    ensures { IfOk result (λ answer. ConditionAnswer scope.now (arm_trees arms.now) answer) }
{
    let all = arms_condition(alloc, scope, arms)?;
    Ok(relation(all))
}

// The relation that is written, if one is.
fn relation(form: Form) -> Option<Rel>
    ensures { rel_option result ≡ written (form_tree form) }
{
    match form {
        Form::Truth(rel) => Some(Box::into_inner(rel)),
        Form::Number(_) | Form::Set(_) | Form::Unwritten => None,
    }
}

// Where the needs of some arm hold.
fn arms_condition(alloc: Global, scope: &[Base], arms: &[Arm]) -> Result<Form, NoMemory>
    requires { length scope.now < 2 ^ 32 }
    ensures { IfOk result (λ f. form_tree f ≡ all_in scope.now (arm_trees arms.now)) }
{
    let mut all = truth(alloc, Rel::False)?;
    for arm in arms {
        let one = arm_condition(alloc, scope, arm)?;
        all = paired(alloc, Pairing::Or, all, one)?;
    }
    Ok(all)
}

// Where the needs of an arm hold.
fn arm_condition(alloc: Global, scope: &[Base], arm: &Arm) -> Result<Form, NoMemory>
    requires { length scope.now < 2 ^ 32 }
    ensures { IfOk result (λ f. form_tree f ≡ arm_in scope.now (arm_tree arm.now)) }
{
    if !arm.bounds.is_empty() {
        return Ok(Form::Unwritten);
    }
    let start = Walk {
        forms: scope_forms(alloc, scope)?,
        needs: truth(alloc, Rel::True)?,
    };
    let end = after_all(alloc, start, &arm.items)?;
    Ok(end.needs)
}

// What the variables so far stand for, and the needs so far.
#[derive(Drop)]
pub(crate) struct Walk {
    forms: Vec<Form>,
    needs: Form,
}

// After lets and needs.
fn after_all(alloc: Global, start: Walk, items: &[Item]) -> Result<Walk, NoMemory>
    ensures { IfOk result (λ w. walk_tree w ≡ items_in (walk_tree start) (item_trees items.now)) }
{
    let mut walk = start;
    for item in items {
        walk = after(alloc, walk, item)?;
    }
    Ok(walk)
}

// After a let or a need.
fn after(alloc: Global, walk: Walk, item: &Item) -> Result<Walk, NoMemory>
    ensures { IfOk result (λ w. walk_tree w ≡ step_in (walk_tree walk) (item_tree item.now)) }
{
    match item {
        Item::Let(code) => {
            let form = form_of(alloc, &walk.forms, code)?;
            bound(walk, form)
        }
        Item::Need(code) => {
            let form = form_of(alloc, &walk.forms, code)?;
            needed(alloc, walk, form)
        }
    }
}

// With one more variable.
fn bound(walk: Walk, form: Form) -> Result<Walk, NoMemory>
    ensures { IfOk result (λ w. walk_tree w ≡ bound_walk (walk_tree walk) (form_tree form)) }
{
    let mut forms = walk.forms;
    let needs = if_written(&form, walk.needs);
    forms.push(form)?;
    Ok(Walk { forms, needs })
}

// The needs, where the form is written.
fn if_written(form: &Form, needs: Form) -> Form
    ensures { form_tree result ≡ if_is_written (form_tree form.now) (form_tree needs) }
{
    if form.is_written() {
        needs
    } else {
        Form::Unwritten
    }
}

// With one more need.
fn needed(alloc: Global, walk: Walk, form: Form) -> Result<Walk, NoMemory>
    ensures { IfOk result (λ w. walk_tree w ≡ needed_walk (walk_tree walk) (form_tree form)) }
{
    let forms = walk.forms;
    let needs = paired(alloc, Pairing::And, walk.needs, form)?;
    Ok(Walk { forms, needs })
}
