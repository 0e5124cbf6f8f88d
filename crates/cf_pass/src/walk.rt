//! A rule at each form of a code, parts first.
ghost use Rattle.std.specs.Prelude.{◌≡◌, ◌≤◌, ◌+◌, ℕ, IsOk, IfOk, OnOk, length};
ghost use Rattle.cf_tree.specs.CodeView.{code_tree, item_tree, arm_tree, code_trees, item_trees, arm_trees};
ghost use Rattle.cf_tree.specs.RelSize.{capped};
ghost use Rattle.cf_pass.specs.Improves.{Improves};
ghost use Rattle.cf_pass.specs.Rewritten.{rewritten, units_of};
ghost use Rattle.cf_pass.specs.Walked.{Outcome, FormWalked, Walked, PartsWalked, AllWalked, GivesWalked, ItemWalked, ItemsWalked, ArmWalked, ArmsWalked};

use crate::rule::Rule;
use cf_tree::{Arm, Code, Item, NoMemory, add_u32, to_u32};
use std::alloc::Global;

/// The rule at each form of the code, outside which `outside` variables are bound.
/// After want of memory what was replaced stands, and nothing more is replaced.
pub(crate) fn rewrite_each<R: Rule>(
    alloc: Global,
    rule: &mut R,
    outside: u32,
    code: &mut Code,
) -> Result<(), NoMemory>
    ensures code { Improves outside (code_tree code.old) (code_tree code.new) }
    ensures tally { R.tally rule.old ≤ R.tally rule.new }
    ensures made { OnOk result (code_tree code.new ≡ rewritten R.made outside (code_tree code.old)) }
    ensures units { OnOk result (capped (R.tally rule.new) ≡ capped (R.tally rule.old + units_of R.made R.units outside (code_tree code.old))) }
{
    walk(alloc, rule, outside, Ok(()), code)
}

// The level behind `more` variables, unless memory was wanting before. More variables than 32 bits count are want of memory.
fn behind(so_far: Result<(), NoMemory>, outside: u32, more: u32) -> Result<u32, NoMemory>
    ensures level { IfOk result (λ n. n ≡ outside + more) }
    ensures before { OnOk result (IsOk so_far) }
{
    match so_far {
        Ok(()) => add_u32(outside, more),
        Err(fault) => Err(fault),
    }
}

// The level behind the searches of an arm.
fn behind_bounds(
    so_far: Result<(), NoMemory>,
    outside: u32,
    bounds: &[u32],
) -> Result<u32, NoMemory>
    ensures level { IfOk result (λ n. n ≡ outside + length bounds.now) }
    ensures before { OnOk result (IsOk so_far) }
{
    behind(so_far, outside, to_u32(bounds.len())?)
}

// The rule at the form itself, unless memory was wanting before.
fn finish<R: Rule>(
    alloc: Global,
    rule: &mut R,
    outside: u32,
    so_far: Result<(), NoMemory>,
    code: &mut Code,
) -> Result<(), NoMemory>
    ensures { FormWalked R.made R.units outside (code_tree code.old) (code_tree code.new) (R.tally rule.old) (R.tally rule.new) so_far result }
{
    match so_far {
        Ok(()) => rule.apply(alloc, outside, code),
        Err(fault) => Err(fault),
    }
}

// The parts of the form, and then the form itself.
#[cycle(walk)]
fn walk<R: Rule>(
    alloc: Global,
    rule: &mut R,
    outside: u32,
    so_far: Result<(), NoMemory>,
    code: &mut Code,
) -> Result<(), NoMemory>
    ensures { Walked R.made R.units outside (code_tree code.old) (code_tree code.new) (R.tally rule.old) (R.tally rule.new) so_far result }
{
    let so_far = walk_parts(alloc, rule, outside, so_far, code);
    finish(alloc, rule, outside, so_far, code)
}

// for the proof: no way ends early where parts are rewritten
#[cycle(walk)]
fn walk_parts<R: Rule>(
    alloc: Global,
    rule: &mut R,
    outside: u32,
    so_far: Result<(), NoMemory>,
    code: &mut Code,
) -> Result<(), NoMemory>
    ensures { PartsWalked R.made R.units outside (code_tree code.old) (code_tree code.new) (R.tally rule.old) (R.tally rule.new) so_far result }
{
    match code {
        Code::Let {
            count,
            value,
            body,
            ..
        } => {
            let so_far = walk_part(alloc, rule, outside, so_far, value);
            walk_behind(alloc, rule, outside, *count, so_far, body)
        }
        Code::Solve { arms, .. } => walk_arms(alloc, rule, outside, so_far, arms),
        Code::SetOf(parts) => walk_all(alloc, rule, outside, so_far, parts),
        Code::Tuple(parts) => walk_all(alloc, rule, outside, so_far, parts),
        Code::Sum(parts) => walk_all(alloc, rule, outside, so_far, parts),
        Code::Sub(a, b) => walk_two(alloc, rule, outside, so_far, a, b),
        Code::Mul(a, b) => walk_two(alloc, rule, outside, so_far, a, b),
        Code::Neg(a) => walk_part(alloc, rule, outside, so_far, a),
        Code::Div { of, .. } => walk_part(alloc, rule, outside, so_far, of),
        Code::Mod { of, .. } => walk_part(alloc, rule, outside, so_far, of),
        Code::Min(parts) => walk_all(alloc, rule, outside, so_far, parts),
        Code::Max(parts) => walk_all(alloc, rule, outside, so_far, parts),
        Code::Compare { left, right, .. } => walk_two(alloc, rule, outside, so_far, left, right),
        Code::Divides { of, .. } => walk_part(alloc, rule, outside, so_far, of),
        Code::And(a, b) => walk_two(alloc, rule, outside, so_far, a, b),
        Code::Or(a, b) => walk_two(alloc, rule, outside, so_far, a, b),
        Code::Not(a) => walk_part(alloc, rule, outside, so_far, a),
        Code::Union(parts) => walk_all(alloc, rule, outside, so_far, parts),
        Code::Inter(parts) => walk_all(alloc, rule, outside, so_far, parts),
        Code::Diff(a, b) => walk_two(alloc, rule, outside, so_far, a, b),
        Code::Subset(a, b) => walk_two(alloc, rule, outside, so_far, a, b),
        Code::Card(a) => walk_part(alloc, rule, outside, so_far, a),
        Code::Slice { set, from, n } => walk_three(alloc, rule, outside, so_far, set, from, n),
        Code::Fresh { avoid, n } => walk_two(alloc, rule, outside, so_far, avoid, n),
        Code::If { test, yes, no } => walk_three(alloc, rule, outside, so_far, test, yes, no),
        Code::Lit(_) => so_far,
        Code::Truth(_) => so_far,
        Code::Var(_) => so_far,
    }
}

// for the proof: the parts of a form are lent with their boxes
#[cycle(walk)]
fn walk_part<R: Rule>(
    alloc: Global,
    rule: &mut R,
    outside: u32,
    so_far: Result<(), NoMemory>,
    part: &mut Box<Code>,
) -> Result<(), NoMemory>
    ensures { Walked R.made R.units outside (code_tree part.old.value) (code_tree part.new.value) (R.tally rule.old) (R.tally rule.new) so_far result }
{
    walk(alloc, rule, outside, so_far, part)
}

// Two parts, the first of them first.
#[cycle(walk)]
fn walk_two<R: Rule>(
    alloc: Global,
    rule: &mut R,
    outside: u32,
    so_far: Result<(), NoMemory>,
    a: &mut Box<Code>,
    b: &mut Box<Code>,
) -> Result<(), NoMemory>
    ensures { (middle : ℕ) × (between : Outcome)
        × Walked R.made R.units outside (code_tree a.old.value) (code_tree a.new.value) (R.tally rule.old) middle so_far between
        × Walked R.made R.units outside (code_tree b.old.value) (code_tree b.new.value) middle (R.tally rule.new) between result }
{
    let so_far = walk_part(alloc, rule, outside, so_far, a);
    walk_part(alloc, rule, outside, so_far, b)
}

// Three parts, the first of them first.
#[cycle(walk)]
fn walk_three<R: Rule>(
    alloc: Global,
    rule: &mut R,
    outside: u32,
    so_far: Result<(), NoMemory>,
    a: &mut Box<Code>,
    b: &mut Box<Code>,
    c: &mut Box<Code>,
) -> Result<(), NoMemory>
    ensures { (first : ℕ) × (second : ℕ) × (behind_a : Outcome) × (behind_b : Outcome)
        × Walked R.made R.units outside (code_tree a.old.value) (code_tree a.new.value) (R.tally rule.old) first so_far behind_a
        × Walked R.made R.units outside (code_tree b.old.value) (code_tree b.new.value) first second behind_a behind_b
        × Walked R.made R.units outside (code_tree c.old.value) (code_tree c.new.value) second (R.tally rule.new) behind_b result }
{
    let so_far = walk_part(alloc, rule, outside, so_far, a);
    let so_far = walk_part(alloc, rule, outside, so_far, b);
    walk_part(alloc, rule, outside, so_far, c)
}

// The same behind `more` further variables.
#[cycle(walk)]
fn walk_behind<R: Rule>(
    alloc: Global,
    rule: &mut R,
    outside: u32,
    more: u32,
    so_far: Result<(), NoMemory>,
    part: &mut Box<Code>,
) -> Result<(), NoMemory>
    ensures { Walked R.made R.units (outside + more) (code_tree part.old.value) (code_tree part.new.value) (R.tally rule.old) (R.tally rule.new) so_far result }
{
    match behind(so_far, outside, more) {
        Ok(level) => walk_part(alloc, rule, level, Ok(()), part),
        Err(fault) => Err(fault),
    }
}

#[cycle(walk)]
fn walk_all<R: Rule>(
    alloc: Global,
    rule: &mut R,
    outside: u32,
    so_far: Result<(), NoMemory>,
    codes: &mut Vec<Code>,
) -> Result<(), NoMemory>
    ensures { AllWalked R.made R.units outside (code_trees codes.old.items) (code_trees codes.new.items) (R.tally rule.old) (R.tally rule.new) so_far result }
{
    let mut so_far = so_far;
    for code in codes.iter_mut() {
        so_far = walk(alloc, rule, outside, so_far, code);
    }
    so_far
}

// What an arm gives, behind the level, unless memory was wanting before.
#[cycle(walk)]
fn walk_gives<R: Rule>(
    alloc: Global,
    rule: &mut R,
    level: Result<u32, NoMemory>,
    codes: &mut Vec<Code>,
) -> Result<(), NoMemory>
    ensures { (n : ℕ) → GivesWalked R.made R.units n (code_trees codes.old.items) (code_trees codes.new.items) (R.tally rule.old) (R.tally rule.new) level
        result }
{
    match level {
        Ok(outside) => walk_all(alloc, rule, outside, Ok(()), codes),
        Err(fault) => Err(fault),
    }
}

// At the level, unless memory was wanting before. Answers the level behind the item.
#[cycle(walk)]
fn walk_item<R: Rule>(
    alloc: Global,
    rule: &mut R,
    level: Result<u32, NoMemory>,
    item: &mut Item,
) -> Result<u32, NoMemory>
    ensures { (n : ℕ) → ItemWalked R.made R.units n (item_tree item.old) (item_tree item.new) (R.tally rule.old) (R.tally rule.new) level result }
{
    match level {
        Ok(outside) => match item {
            Item::Let(code) => {
                let so_far = walk(alloc, rule, outside, Ok(()), code);
                behind(so_far, outside, 1)
            }
            Item::Need(code) => {
                let so_far = walk(alloc, rule, outside, Ok(()), code);
                behind(so_far, outside, 0)
            }
        },
        Err(fault) => Err(fault),
    }
}

// Answers the level behind the items.
#[cycle(walk)]
fn walk_items<R: Rule>(
    alloc: Global,
    rule: &mut R,
    level: Result<u32, NoMemory>,
    items: &mut Vec<Item>,
) -> Result<u32, NoMemory>
    ensures { (n : ℕ) → ItemsWalked R.made R.units n (item_trees items.old.items) (item_trees items.new.items) (R.tally rule.old) (R.tally rule.new) level
        result }
{
    let mut level = level;
    for item in items.iter_mut() {
        level = walk_item(alloc, rule, level, item);
    }
    level
}

#[cycle(walk)]
fn walk_arm<R: Rule>(
    alloc: Global,
    rule: &mut R,
    outside: u32,
    so_far: Result<(), NoMemory>,
    arm: &mut Arm,
) -> Result<(), NoMemory>
    ensures { ArmWalked R.made R.units outside (arm_tree arm.old) (arm_tree arm.new) (R.tally rule.old) (R.tally rule.new) so_far result }
{
    let level = behind_bounds(so_far, outside, &arm.bounds);
    let level = walk_items(alloc, rule, level, &mut arm.items);
    walk_gives(alloc, rule, level, &mut arm.gives)
}

#[cycle(walk)]
fn walk_arms<R: Rule>(
    alloc: Global,
    rule: &mut R,
    outside: u32,
    so_far: Result<(), NoMemory>,
    arms: &mut Vec<Arm>,
) -> Result<(), NoMemory>
    ensures { ArmsWalked R.made R.units outside (arm_trees arms.old.items) (arm_trees arms.new.items) (R.tally rule.old) (R.tally rule.new) so_far result }
{
    let mut so_far = so_far;
    for arm in arms.iter_mut() {
        so_far = walk_arm(alloc, rule, outside, so_far, arm);
    }
    so_far
}
