//! Functions whose weight stands still at the greatest number, told without forming them.
ghost use Rattle.std.specs.Prelude.{◌≡◌, ◌<◌, ◌-◌, ◌^◌, None, false, IfOk, length, map};
ghost use Rattle.cf_tree.specs.DefView.{def_tree};
ghost use Rattle.cf_tree.specs.ExprView.{expr_tree, given_expr};
ghost use Rattle.cf_program.specs.Size.{weights, first_above};
ghost use Rattle.cf_form.specs.declared.fault.FormFault.TheVariants as faults;
ghost use Rattle.cf_form.specs.Floor.{IsHeavy, base_floor};
ghost use Rattle.cf_form.specs.FormAnswers.{AreNarrow, IsUnformed};
ghost use Rattle.cf_form.specs.Formed.{formed_defs, has_truths as has_truths_of};
ghost use Rattle.cf_form.specs.Saturated.{HasCondition, IsHeavyAt, IsNarrow};
ghost use Rattle.cf_form.specs.Unfolding.{calls_of};

use crate::choose::{Outline, all_bases, has_truths};
use crate::chooses::{collect, first_passed};
use crate::floor::{base_floors, floor_of, truth_in};
use crate::forming::form_defs;
use crate::wide::Room;
use cf_program::first_too_heavy;
use cf_tree::{Aim, Base, Def, Expr, Given, NoMemory, bases, to_u32};
use std::alloc::Global;

/// The number of the first function that passes the limit of weight, where its weight stands still
/// at `2^64 - 1` and no atom has too many alternatives; want of memory also where this is not known.
#[tactic(auto, using(crate::proofs::SaturatedLaws::saturated_is))]
pub(crate) fn saturated(alloc: Global, defs: &[Def]) -> Result<u32, NoMemory>
    ensures { IfOk result (λ f. IsUnformed (map def_tree defs.now) (faults.Weight f (2 ^ 64 - 1))) }
{
    let index = first_heavy(alloc, defs)?;
    all_narrow(alloc, defs)?;
    all_light(alloc, &defs[..index])?;
    let function = to_u32(index)?;
    Ok(function)
}

// The first function that is known to be so heavy.
#[tactic(auto, using(crate::proofs::SaturatedLaws::heavy_at))]
fn first_heavy(alloc: Global, defs: &[Def]) -> Result<usize, NoMemory>
    ensures below { IfOk result (λ i. i < length defs.now) }
    ensures heavy { IfOk result (λ i. IsHeavyAt defs.now i) }
{
    for index in 0..defs.len() {
        match heavy(alloc, &defs[..index], &defs[index].body) {
            Ok(()) => return Ok(index),
            Err(_) => {}
        }
    }
    Err(NoMemory)
}

// Whether the form of a body is known to be so heavy.
#[tactic(auto, using(crate::proofs::FloorSteps::heavy_top))]
fn heavy(alloc: Global, before: &[Def], expr: &Expr) -> Result<(), NoMemory>
    ensures { IfOk result (λ _. IsHeavy (calls_of (map def_tree before.now)) (2 ^ 64 - 1) (expr_tree expr.now)) }
{
    let weight = choose_floor(alloc, before, expr)?;
    if weight == u64::MAX {
        Ok(())
    } else {
        Err(NoMemory)
    }
}

// What the form of a body that is a choose weighs at least, where no atom has too many alternatives.
#[tactic(auto, using(crate::proofs::SaturatedLaws::choose_heavy_by))]
fn choose_floor(alloc: Global, before: &[Def], expr: &Expr) -> Result<u64, NoMemory>
    ensures { IfOk result (λ w. IsHeavy (calls_of (map def_tree before.now)) w (expr_tree expr.now)) }
{
    match expr {
        Expr::ChooseWhere {
            number,
            scope,
            outputs,
            hidden,
            given,
            rel,
            aim: Aim::Any,
        } => {
            let outline = Outline {
                number: *number,
                scope,
                outputs,
                hidden,
            };
            let inputs = bases(alloc, scope)?;
            without_truths(&inputs)?;
            given_floor(alloc, before, &inputs, given)?;
            let all = all_bases(alloc, &outline)?;
            let env = base_floors(alloc, &all)?;
            let weight = truth_in(floor_of(alloc, before, &env, rel)?)?;
            Ok(weight)
        }
        _ => Err(NoMemory),
    }
}

// Where truth values come in, the choose branches on them, and its relations are folded.
fn without_truths(inputs: &[Base]) -> Result<(), NoMemory>
    ensures { IfOk result (λ _. has_truths_of inputs.now ≡ false) }
{
    if has_truths(inputs) {
        Err(NoMemory)
    } else {
        Ok(())
    }
}

#[tactic(auto, using(crate::proofs::SaturatedLaws::always_has, crate::proofs::SaturatedLaws::given_has))]
fn given_floor(
    alloc: Global,
    before: &[Def],
    inputs: &[Base],
    given: &Given,
) -> Result<(), NoMemory>
    ensures { IfOk result (λ _. HasCondition (calls_of (map def_tree before.now)) (map base_floor inputs.now) (given_expr given.now)) }
{
    match given {
        Given::Always => Ok(()),
        Given::Where(p) => {
            let env = base_floors(alloc, inputs)?;
            truth_in(floor_of(alloc, before, &env, p)?)?;
            Ok(())
        }
    }
}

// No atom of a choose in these functions has too many alternatives.
fn all_narrow(alloc: Global, defs: &[Def]) -> Result<(), NoMemory>
    ensures { IfOk result (λ _. AreNarrow (map def_tree defs.now)) }
{
    let mut room = Room::new();
    for index in 0..defs.len() {
        narrow(alloc, &mut room, &defs[..index], &defs[index].body)?;
    }
    Ok(())
}

#[tactic(auto, using(crate::proofs::SaturatedLaws::heavy_narrow))]
fn narrow(alloc: Global, room: &mut Room, before: &[Def], expr: &Expr) -> Result<(), NoMemory>
    ensures { IfOk result (λ _. IsNarrow before.now expr.now) }
{
    match choose_floor(alloc, before, expr) {
        Ok(_) => Ok(()),
        Err(_) => narrow_within(alloc, room, before, expr),
    }
}

#[tactic(auto, using(crate::proofs::SaturatedLaws::within_narrow))]
fn narrow_within(
    alloc: Global,
    room: &mut Room,
    before: &[Def],
    expr: &Expr,
) -> Result<(), NoMemory>
    ensures { IfOk result (λ _. IsNarrow before.now expr.now) }
{
    let mut all = Vec::new(alloc);
    collect(alloc, room, before, expr, &mut all)?;
    match first_passed(&all) {
        None => Ok(()),
        Some(_) => Err(NoMemory),
    }
}

// None of these functions passes the limit of weight.
#[tactic(auto, using(crate::proofs::SaturatedLaws::light_is))]
fn all_light(alloc: Global, defs: &[Def]) -> Result<(), NoMemory>
    ensures { IfOk result (λ _. first_above 1000000 0 (weights (formed_defs (map def_tree defs.now))) ≡ None) }
{
    let mut room = Room::new();
    let new = form_defs(alloc, &mut room, defs)?;
    match first_too_heavy(alloc, &new)? {
        None => Ok(()),
        Some(_) => Err(NoMemory),
    }
}
