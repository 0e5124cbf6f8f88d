//! Lets that nothing uses, which are removed.
ghost use Rattle.std.specs.Prelude.{◌≡◌, ◌≤◌, ◌+◌, ◌-◌, ℕ, [], length, vec_capacity, IfOk, OnOk, OnErr, IsOk};
ghost use Rattle.cf_tree.specs.CodeView.{code_tree, arm_tree, arm_trees, item_trees, code_trees};
ghost use Rattle.cf_tree.specs.RelSize.{capped};
ghost use Rattle.cf_pass.specs.Lets.{lets_dropped, item_count, arm_dropped, arms_dropped, drop_lets_form, arm_gone, arms_gone, drop_lets_units};
ghost use Rattle.cf_pass.specs.LetSteps.{lets_stay, settled, removed_from, dropped_to, form_to};

use crate::falls::{Fall, lower_all, settle_items};
use crate::marks::lets_that_stay;
use cf_tree::{Arm, Code, Item, NoMemory};
use std::alloc::Global;

/// Removes each let of a solve that no later item and no give of its arm uses, from the last item to the first, where
/// `outside` variables are bound outside the solve. Answers how many it removed, at most `2^64 - 1`. Levels behind a
/// removed let fall by 1. Another form stays, and so do the parts of a form.
///
/// # Errors
/// Want of memory. What was removed from earlier arms stays removed.
pub(crate) fn drop_lets(alloc: Global, outside: u32, code: &mut Code) -> Result<u64, NoMemory>
    ensures partly { (i : ℕ) × (code_tree code.new ≡ form_to outside i (code_tree code.old)) }
    ensures code { OnOk result (code_tree code.new ≡ drop_lets_form outside (code_tree code.old)) }
    ensures removed { IfOk result (λ n. n ≡ capped (drop_lets_units outside (code_tree code.old))) }
{
    match code {
        Code::Solve { arms, .. } => drop_in_arms(alloc, outside, arms),
        _ => Ok(0),
    }
}

// for the proof: no way ends early where arms are changed
fn drop_in_arms(alloc: Global, outside: u32, arms: &mut Vec<Arm>) -> Result<u64, NoMemory>
    ensures partly { (i : ℕ) × (arm_trees arms.new.items ≡ dropped_to outside i (arm_trees arms.old.items)) }
    ensures arms { OnOk result (arm_trees arms.new.items ≡ arms_dropped outside (arm_trees arms.old.items)) }
    ensures removed { IfOk result (λ n. n ≡ capped (arms_gone outside (arm_trees arms.old.items))) }
{
    let mut removed: Result<u64, NoMemory> = Ok(0);
    for arm in arms.iter_mut() {
        removed = drop_in_next(alloc, outside, removed, arm);
    }
    removed
}

// The same of one arm more, unless memory was wanting before.
fn drop_in_next(
    alloc: Global,
    outside: u32,
    removed: Result<u64, NoMemory>,
    arm: &mut Arm,
) -> Result<u64, NoMemory>
    ensures before { OnOk result (IsOk removed) }
    ensures arm { OnOk result (arm_tree arm.new ≡ arm_dropped outside (arm_tree arm.old)) }
    ensures same { OnErr result (arm_tree arm.new ≡ arm_tree arm.old) }
    ensures removed { IfOk result (λ n. IfOk removed (λ m. n ≡ capped (m + arm_gone outside (arm_tree arm.old)))) }
{
    match removed {
        Ok(before) => match drop_in_arm(alloc, outside, arm) {
            Ok(more) => Ok(before.saturating_add(more)),
            Err(fault) => Err(fault),
        },
        Err(fault) => Err(fault),
    }
}

fn drop_in_arm(alloc: Global, outside: u32, arm: &mut Arm) -> Result<u64, NoMemory>
    ensures arm { OnOk result (arm_tree arm.new ≡ arm_dropped outside (arm_tree arm.old)) }
    ensures same { OnErr result (arm_tree arm.new ≡ arm_tree arm.old) }
    ensures removed { IfOk result (λ n. n ≡ arm_gone outside (arm_tree arm.old)) }
{
    match plan(alloc, outside, arm) {
        Ok((stay, fall)) => Ok(settle(fall, &stay, arm)),
        Err(fault) => Err(fault),
    }
}

// Which lets stay, and how levels fall before the first of them, with room for all. More variables than can be
// counted are want of memory.
fn plan(alloc: Global, outside: u32, arm: &Arm) -> Result<(Vec<bool>, Fall), NoMemory>
    ensures stay { IfOk result (λ p. p.0.items ≡ lets_stay (outside + length arm.now.bounds.items) (item_trees arm.now.items.items)
        (code_trees arm.now.gives.items)) }
    ensures first { IfOk result (λ p. p.1.first ≡ outside + length arm.now.bounds.items) }
    ensures gone { IfOk result (λ p. p.1.gone.items ≡ []) }
    ensures dropped { IfOk result (λ p. p.1.dropped ≡ 0) }
    ensures room { IfOk result (λ p. length p.0.items ≤ vec_capacity p.1.gone) }
{
    match (outside as usize).checked_add(arm.bounds.len()) {
        Some(first) => {
            let stay = lets_that_stay(alloc, first, &arm.items, &arm.gives)?;
            let gone = Vec::with_capacity(alloc, stay.len())?;
            Ok((
                stay,
                Fall {
                    first,
                    gone,
                    dropped: 0,
                },
            ))
        }
        None => Err(NoMemory),
    }
}

// Answers how many items are removed.
fn settle(fall: Fall, stay: &[bool], arm: &mut Arm) -> u64
    requires stay { stay.now ≡ lets_stay fall.first (item_trees arm.old.items.items) (code_trees arm.old.gives.items) }
    requires gone { fall.gone.items ≡ [] }
    requires dropped { fall.dropped ≡ 0 }
    requires room { length stay.now ≤ vec_capacity fall.gone }
    ensures arm { arm_tree arm.new ≡ settled fall.first (arm_tree arm.old) }
    ensures removed { result ≡ removed_from fall.first (arm_tree arm.old) }
{
    settle_parts(fall, stay, &mut arm.items, &mut arm.gives)
}

fn settle_parts(fall: Fall, stay: &[bool], items: &mut Vec<Item>, gives: &mut Vec<Code>) -> u64
    requires stay { stay.now ≡ lets_stay fall.first (item_trees items.old.items) (code_trees gives.old.items) }
    requires gone { fall.gone.items ≡ [] }
    requires dropped { fall.dropped ≡ 0 }
    requires room { length stay.now ≤ vec_capacity fall.gone }
    ensures items { item_trees items.new.items ≡ (lets_dropped fall.first (item_trees items.old.items) (code_trees gives.old.items)).items }
    ensures gives { code_trees gives.new.items ≡ (lets_dropped fall.first (item_trees items.old.items) (code_trees gives.old.items)).gives }
    ensures removed { result ≡ item_count (item_trees items.old.items)
        - item_count (lets_dropped fall.first (item_trees items.old.items) (code_trees gives.old.items)).items }
{
    let mut fall = fall;
    let before = items.len();
    settle_items(&mut fall, stay, items);
    lower_all(&fall, gives);
    (before - items.len()) as u64
}
