//! Runs target code.
ghost use Rattle.std.specs.Prelude.{◌≡◌, [], None, IfOk, OnOk, All, pos};
ghost use Rattle.cf_num.specs.Limit.{IsWithin};
ghost use Rattle.cf_tree.specs.Sets.{is_subset};
ghost use Rattle.cf_tree.specs.CodeView.{code_tree, item_tree, arm_tree, code_trees, item_trees, arm_trees};
ghost use Rattle.cf_eval.specs.Answers.{Answers};
ghost use Rattle.cf_eval.specs.Choice.{better_of, join_of};
ghost use Rattle.cf_eval.specs.Reached.{reached, seen, as_first, as_number, as_truth, as_set, all_reached, set_reached, sum_reached, best_reached, join_reached, items_reached, item_reached, try_reached, arm_reached, arms_reached, or_none, then_reached};
ghost use Rattle.cf_eval.specs.Seen.{plains, IsFit};
ghost use Rattle.cf_eval.specs.RunAnswers.{RunAnswer, ValuesAnswer, ValueAnswer, NumberAnswer, TruthAnswer, SetAnswer, FoundAnswer, ItemsAnswer, MoreAnswer, Extends, IsGivenFit, IsFoundFit};

use crate::given::{
    Given, Stop, limited, met_copy, met_number, met_number_of, narrow_number, number, push_copy,
    push_given, push_met, push_narrow, set, truth,
};
use crate::joining::{Join, join_more, join_runs};
use crate::kind::{Kind, kind_of};
use crate::lent::lent_set;
use crate::operate::{
    Side, better, compare_given, compare_numbers, difference, divide, fresh, into_number, into_set,
    into_truth, numeric, part, product, push_element, remain,
};
use crate::quick::{known, known_truth};
use crate::search::{count_of, push_tuple};
use crate::value::{Outcome, Value};
use cf_set::Set;
use cf_tree::{Arm, Code, Item, NoMemory, Target};
use std::alloc::Global;

/// The target's meaning on these values, or `Overflow` exactly where a number met on the way passes
/// 2^127 - 1. The run binds its variables behind the values, and copies none.
pub fn run_on(alloc: Global, target: &Target, values: Vec<Value>) -> Result<Outcome, NoMemory>
    ensures { IfOk result (Answers (code_tree target.now.code) (plains values.items)) }
{
    run_in(alloc, target.body(), values)
}

/// The same of code that stands in no target, where its variables have these values by level.
pub fn run_code(alloc: Global, code: &Code, values: &[Value]) -> Result<Outcome, NoMemory>
    ensures { IfOk result (Answers (code_tree code.now) (plains values.now)) }
{
    run_in(alloc, code, copy_values(alloc, values)?)
}

fn run_in(alloc: Global, code: &Code, values: Vec<Value>) -> Result<Outcome, NoMemory>
    ensures { IfOk result (Answers (code_tree code.now) (plains values.items)) }
{
    let mut env = values;
    match eval(alloc, code, &mut env) {
        Ok(given) => Ok(Outcome::Values(given.into_values(env)?)),
        Err(Stop::NoMemory) => Err(NoMemory),
        Err(Stop::Past) => Ok(Outcome::Overflow),
        Err(Stop::Unsolved(n)) => Ok(Outcome::NoSolution(n)),
    }
}

/// Room for the variables that most targets bind.
pub const ROOM: usize = 16;

fn copy_values(alloc: Global, values: &[Value]) -> Result<Vec<Value>, NoMemory>
    ensures { IfOk result (λ copies. copies.items ≡ values.now) }
{
    let mut copies = Vec::with_capacity(alloc, values.len().saturating_add(ROOM))?;
    for v in values {
        copies.push(v.try_copy(alloc)?)?;
    }
    Ok(copies)
}

// What the code gives where its variables have these values. The values stand as before after Ok.
#[cycle(eval)]
#[tactic(auto, using(crate::proofs::FormLemmas::number_ok, crate::proofs::FormLemmas::truth_ok, crate::proofs::FormLemmas::set_ok, crate::proofs::FormLemmas::number_stop, crate::proofs::FormLemmas::truth_stop, crate::proofs::FormLemmas::set_stop))]
fn eval(alloc: Global, code: &Code, env: &mut Vec<Value>) -> Result<Given, Stop>
    ensures told { RunAnswer result (reached (code_tree code.now) (plains env.old.items)) }
    ensures kept { IfOk result (λ v. IsGivenFit v × (env.new.items ≡ env.old.items)) }
{
    match kind_of(code) {
        Kind::Number => match known(code, env) {
            Some(z) => Ok(narrow_number(z)),
            None => Ok(number(count(alloc, code, env)?)),
        },
        Kind::Truth => Ok(truth(test(alloc, code, env)?)),
        Kind::Elements => Ok(set(collect(alloc, code, env)?)),
        Kind::Other => choose(alloc, code, env),
    }
}

#[cycle(eval)]
fn eval_first(alloc: Global, code: &Code, env: &mut Vec<Value>) -> Result<Value, Stop>
    ensures told { ValueAnswer result (as_first (reached (code_tree code.now) (plains env.old.items))) }
    ensures kept { IfOk result (λ v. IsFit v × (env.new.items ≡ env.old.items)) }
{
    Ok(eval(alloc, code, env)?.first())
}

#[cycle(eval)]
#[inline(always)]
fn eval_number(alloc: Global, code: &Code, env: &mut Vec<Value>) -> Result<i128, Stop>
    ensures told { NumberAnswer result (as_number (reached (code_tree code.now) (plains env.old.items))) }
    ensures kept { IfOk result (λ v. IsWithin v × (env.new.items ≡ env.old.items)) }
{
    match code {
        Code::Lit(k) => met_number(limited(*k)),
        Code::Var(x) => met_number_of(env.get(*x as usize)),
        _ => eval_count(alloc, code, env),
    }
}

#[cycle(eval)]
fn eval_count(alloc: Global, code: &Code, env: &mut Vec<Value>) -> Result<i128, Stop>
    ensures told { NumberAnswer result (as_number (reached (code_tree code.now) (plains env.old.items))) }
    ensures kept { IfOk result (λ v. IsWithin v × (env.new.items ≡ env.old.items)) }
{
    match kind_of(code) {
        Kind::Number => count(alloc, code, env),
        _ => other_number(alloc, code, env),
    }
}

#[cycle(eval)]
#[inline(never)]
fn other_number(alloc: Global, code: &Code, env: &mut Vec<Value>) -> Result<i128, Stop>
    ensures told { NumberAnswer result (as_number (reached (code_tree code.now) (plains env.old.items))) }
    ensures kept { IfOk result (λ v. IsWithin v × (env.new.items ≡ env.old.items)) }
{
    Ok(into_number(eval_first(alloc, code, env)?))
}

#[cycle(eval)]
fn eval_truth(alloc: Global, code: &Code, env: &mut Vec<Value>) -> Result<bool, Stop>
    ensures told { TruthAnswer result (as_truth (reached (code_tree code.now) (plains env.old.items))) }
    ensures kept { OnOk result (env.new.items ≡ env.old.items) }
{
    match known_truth(code, env) {
        Some(b) => Ok(b),
        None => exact_truth(alloc, code, env),
    }
}

#[cycle(eval)]
#[inline(never)]
fn exact_truth(alloc: Global, code: &Code, env: &mut Vec<Value>) -> Result<bool, Stop>
    ensures told { TruthAnswer result (as_truth (reached (code_tree code.now) (plains env.old.items))) }
    ensures kept { OnOk result (env.new.items ≡ env.old.items) }
{
    match code {
        Code::And(a, b) => {
            if eval_truth(alloc, a, env)? {
                eval_truth(alloc, b, env)
            } else {
                Ok(false)
            }
        }
        Code::Or(a, b) => {
            if eval_truth(alloc, a, env)? {
                Ok(true)
            } else {
                eval_truth(alloc, b, env)
            }
        }
        _ => match kind_of(code) {
            Kind::Truth => test(alloc, code, env),
            _ => first_truth(alloc, code, env),
        },
    }
}

#[cycle(eval)]
#[inline(never)]
fn first_truth(alloc: Global, code: &Code, env: &mut Vec<Value>) -> Result<bool, Stop>
    ensures told { TruthAnswer result (as_truth (reached (code_tree code.now) (plains env.old.items))) }
    ensures kept { OnOk result (env.new.items ≡ env.old.items) }
{
    Ok(into_truth(eval_first(alloc, code, env)?))
}

#[cycle(eval)]
fn eval_set(alloc: Global, code: &Code, env: &mut Vec<Value>) -> Result<Set, Stop>
    ensures told { SetAnswer result (as_set (reached (code_tree code.now) (plains env.old.items))) }
    ensures kept { OnOk result (env.new.items ≡ env.old.items) }
{
    match kind_of(code) {
        Kind::Elements => collect(alloc, code, env),
        _ => other_set(alloc, code, env),
    }
}

#[cycle(eval)]
#[inline(never)]
fn other_set(alloc: Global, code: &Code, env: &mut Vec<Value>) -> Result<Set, Stop>
    ensures told { SetAnswer result (as_set (reached (code_tree code.now) (plains env.old.items))) }
    ensures kept { OnOk result (env.new.items ≡ env.old.items) }
{
    let v = eval_first(alloc, code, env)?;
    into_set(alloc, v)
}

// The number that a form of numbers gives. No other form is passed to it.
#[cycle(eval)]
#[inline(never)]
fn count(alloc: Global, code: &Code, env: &mut Vec<Value>) -> Result<i128, Stop>
    ensures told { NumberAnswer result (as_number (reached (code_tree code.now) (plains env.old.items))) }
    ensures kept { IfOk result (λ v. IsWithin v × (env.new.items ≡ env.old.items)) }
{
    match code {
        Code::Lit(k) => met_number(limited(*k)),
        Code::Sum(parts) => eval_sum(alloc, parts, env),
        Code::Sub(a, b) => {
            let x = eval_number(alloc, a, env)?;
            let y = eval_number(alloc, b, env)?;
            met_number(cf_num::sub(x, y))
        }
        Code::Mul(a, b) => {
            let x = eval_number(alloc, a, env)?;
            let y = eval_number(alloc, b, env)?;
            product(x, y)
        }
        Code::Neg(a) => Ok(cf_num::neg(eval_number(alloc, a, env)?)),
        Code::Div { of, k } => Ok(divide(eval_number(alloc, of, env)?, *k)),
        Code::Mod { of, k } => Ok(remain(eval_number(alloc, of, env)?, *k)),
        Code::Min(parts) => eval_best(alloc, Side::Least, parts, env),
        Code::Max(parts) => eval_best(alloc, Side::Greatest, parts, env),
        Code::Card(a) => Ok(i128::from(eval_set(alloc, a, env)?.card())),
        _ => Err(Stop::NoMemory),
    }
}

// The truth value that a form of truth values gives. No other form is passed to it.
#[cycle(eval)]
#[inline(never)]
fn test(alloc: Global, code: &Code, env: &mut Vec<Value>) -> Result<bool, Stop>
    ensures told { TruthAnswer result (as_truth (reached (code_tree code.now) (plains env.old.items))) }
    ensures kept { OnOk result (env.new.items ≡ env.old.items) }
{
    match code {
        Code::Truth(t) => Ok(*t),
        Code::Compare { .. } => test_order(alloc, code, env),
        Code::Divides { k, of } => Ok(remain(eval_number(alloc, of, env)?, *k) == 0),
        Code::Not(a) => Ok(!eval_truth(alloc, a, env)?),
        Code::Subset(a, b) => {
            let s = eval_set(alloc, a, env)?;
            is_subset_of(alloc, s, b, env)
        }
        _ => Err(Stop::NoMemory),
    }
}

// How the sides of a comparison stand to each other. No other form is passed to it.
#[cycle(eval)]
#[inline(always)]
#[tactic(auto, using(crate::proofs::FormLemmas::compare_ok, crate::proofs::FormLemmas::compare_left, crate::proofs::FormLemmas::compare_right))]
fn test_order(alloc: Global, code: &Code, env: &mut Vec<Value>) -> Result<bool, Stop>
    ensures told { TruthAnswer result (as_truth (reached (code_tree code.now) (plains env.old.items))) }
    ensures kept { OnOk result (env.new.items ≡ env.old.items) }
{
    match code {
        Code::Compare { order, left, right } => {
            if numeric(*order, kind_of(left)) {
                let x = eval_number(alloc, left, env)?;
                let y = eval_number(alloc, right, env)?;
                Ok(compare_numbers(*order, x, y))
            } else {
                compare_values(alloc, code, env)
            }
        }
        _ => Err(Stop::NoMemory),
    }
}

// The same by the values of the sides. No other form is passed to it.
#[cycle(eval)]
#[inline(never)]
fn compare_values(alloc: Global, code: &Code, env: &mut Vec<Value>) -> Result<bool, Stop>
    ensures told { TruthAnswer result (as_truth (reached (code_tree code.now) (plains env.old.items))) }
    ensures kept { OnOk result (env.new.items ≡ env.old.items) }
{
    match code {
        Code::Compare { order, left, right } => {
            let v = eval_first(alloc, left, env)?;
            let w = eval_first(alloc, right, env)?;
            Ok(compare_given(*order, v, w))
        }
        _ => Err(Stop::NoMemory),
    }
}

// Whether the set that the code gives has all the elements of this one.
#[cycle(eval)]
#[inline(never)]
fn is_subset_of(alloc: Global, s: Set, code: &Code, env: &mut Vec<Value>) -> Result<bool, Stop>
    ensures told { TruthAnswer result (seen (is_subset s) (as_set (reached (code_tree code.now) (plains env.old.items)))) }
    ensures kept { OnOk result (env.new.items ≡ env.old.items) }
{
    let t = eval_set(alloc, code, env)?;
    Ok(s.subset(&t))
}

// The set that a form of sets gives. No other form is passed to it.
#[cycle(eval)]
#[inline(never)]
fn collect(alloc: Global, code: &Code, env: &mut Vec<Value>) -> Result<Set, Stop>
    ensures told { SetAnswer result (as_set (reached (code_tree code.now) (plains env.old.items))) }
    ensures kept { OnOk result (env.new.items ≡ env.old.items) }
{
    match lent_set(alloc, code, env)? {
        Some(s) => Ok(s),
        None => made_set(alloc, code, env),
    }
}

#[cycle(eval)]
#[inline(never)]
fn made_set(alloc: Global, code: &Code, env: &mut Vec<Value>) -> Result<Set, Stop>
    ensures told { SetAnswer result (as_set (reached (code_tree code.now) (plains env.old.items))) }
    ensures kept { OnOk result (env.new.items ≡ env.old.items) }
{
    match code {
        Code::SetOf(parts) => eval_set_of(alloc, parts, env),
        Code::Union(parts) => eval_join(alloc, Join::Union, parts, env),
        Code::Inter(parts) => eval_join(alloc, Join::Inter, parts, env),
        Code::Diff(a, b) => {
            let s = eval_set(alloc, a, env)?;
            let t = eval_set(alloc, b, env)?;
            difference(alloc, s, t)
        }
        Code::Slice { set, from, n } => {
            let s = eval_set(alloc, set, env)?;
            let start = eval_number(alloc, from, env)?;
            let size = eval_number(alloc, n, env)?;
            part(alloc, s, start, size)
        }
        Code::Fresh { avoid, n } => {
            let s = eval_set(alloc, avoid, env)?;
            let size = eval_number(alloc, n, env)?;
            fresh(alloc, &s, size)
        }
        _ => Err(Stop::NoMemory),
    }
}

// What the forms give whose parts or values decide what they give. No other form is passed to it.
#[cycle(eval)]
#[inline(never)]
fn choose(alloc: Global, code: &Code, env: &mut Vec<Value>) -> Result<Given, Stop>
    ensures told { RunAnswer result (reached (code_tree code.now) (plains env.old.items)) }
    ensures kept { IfOk result (λ v. IsGivenFit v × (env.new.items ≡ env.old.items)) }
{
    match code {
        Code::Var(x) => met_copy(alloc, env.get(*x as usize)),
        Code::Tuple(parts) => Ok(Given::Several(eval_all(alloc, parts, env)?)),
        Code::And(a, b) => {
            if eval_truth(alloc, a, env)? {
                eval(alloc, b, env)
            } else {
                Ok(truth(false))
            }
        }
        Code::Or(a, b) => {
            if eval_truth(alloc, a, env)? {
                Ok(truth(true))
            } else {
                eval(alloc, b, env)
            }
        }
        Code::If { test, yes, no } => {
            if eval_truth(alloc, test, env)? {
                eval(alloc, yes, env)
            } else {
                eval(alloc, no, env)
            }
        }
        Code::Let { value, body, .. } => {
            let size = env.len();
            let bound = eval(alloc, value, env)?;
            bound.append_to(env)?;
            let given = eval(alloc, body, env)?;
            env.truncate(size);
            Ok(given)
        }
        Code::Solve { number, arms } => eval_solve(alloc, *number, arms, env),
        _ => Err(Stop::NoMemory),
    }
}

#[cycle(eval)]
#[inline(never)]
fn eval_solve(alloc: Global, number: u32, arms: &[Arm], env: &mut Vec<Value>) -> Result<Given, Stop>
    ensures told { RunAnswer result (then_reached (arms_reached (arm_trees arms.now) (plains env.old.items)) (or_none number)) }
    ensures kept { IfOk result (λ v. IsGivenFit v × (env.new.items ≡ env.old.items)) }
{
    match eval_arms(alloc, arms, env)? {
        None => Err(Stop::Unsolved(number)),
        Some(values) => Ok(Given::Several(values)),
    }
}

// The values of the parts, one after another.
#[cycle(eval)]
fn eval_all(alloc: Global, parts: &[Code], env: &mut Vec<Value>) -> Result<Vec<Value>, Stop>
    ensures told { ValuesAnswer result (all_reached (code_trees parts.now) (plains env.old.items) []) }
    ensures kept { IfOk result (λ v. All IsFit v.items × (env.new.items ≡ env.old.items)) }
{
    let mut all = Vec::with_capacity(alloc, parts.len())?;
    for i in 0..parts.len() {
        add_part(alloc, &parts[i], env, &mut all)?;
    }
    Ok(all)
}

// Appends what the code gives.
#[cycle(eval)]
fn add_part(
    alloc: Global,
    code: &Code,
    env: &mut Vec<Value>,
    all: &mut Vec<Value>,
) -> Result<(), Stop>
    ensures told { MoreAnswer result (plains all.old.items) (plains all.new.items) (reached (code_tree code.now) (plains env.old.items)) }
    ensures kept { OnOk result ((All IsFit all.old.items → All IsFit all.new.items) × (env.new.items ≡ env.old.items)) }
{
    match known(code, env) {
        Some(z) => push_narrow(z, all),
        None => add_exact(alloc, code, env, all),
    }
}

#[cycle(eval)]
#[inline(never)]
#[tactic(auto, using(crate::proofs::FormLemmas::number_ok, crate::proofs::FormLemmas::number_stop))]
fn add_exact(
    alloc: Global,
    code: &Code,
    env: &mut Vec<Value>,
    all: &mut Vec<Value>,
) -> Result<(), Stop>
    ensures told { MoreAnswer result (plains all.old.items) (plains all.new.items) (reached (code_tree code.now) (plains env.old.items)) }
    ensures kept { OnOk result ((All IsFit all.old.items → All IsFit all.new.items) × (env.new.items ≡ env.old.items)) }
{
    match kind_of(code) {
        Kind::Number => {
            let z = eval_number(alloc, code, env)?;
            push_met(z, all)
        }
        _ => add_other(alloc, code, env, all),
    }
}

#[cycle(eval)]
fn add_other(
    alloc: Global,
    code: &Code,
    env: &mut Vec<Value>,
    all: &mut Vec<Value>,
) -> Result<(), Stop>
    ensures told { MoreAnswer result (plains all.old.items) (plains all.new.items) (reached (code_tree code.now) (plains env.old.items)) }
    ensures kept { OnOk result ((All IsFit all.old.items → All IsFit all.new.items) × (env.new.items ≡ env.old.items)) }
{
    match code {
        Code::Var(x) => push_copy(alloc, env.get(*x as usize), all),
        _ => {
            let more = eval(alloc, code, env)?;
            push_given(more, all)
        }
    }
}

#[cycle(eval)]
fn eval_set_of(alloc: Global, parts: &[Code], env: &mut Vec<Value>) -> Result<Set, Stop>
    ensures told { SetAnswer result (as_set (set_reached (code_trees parts.now) (plains env.old.items) [])) }
    ensures kept { OnOk result (env.new.items ≡ env.old.items) }
{
    let mut items = Vec::with_capacity(alloc, parts.len())?;
    for i in 0..parts.len() {
        let x = eval_number(alloc, &parts[i], env)?;
        push_element(x, &mut items)?;
    }
    Ok(Set::from_list(alloc, &items)?)
}

#[cycle(eval)]
fn eval_sum(alloc: Global, parts: &[Code], env: &mut Vec<Value>) -> Result<i128, Stop>
    ensures told { NumberAnswer result (as_number (sum_reached (code_trees parts.now) (plains env.old.items) (pos 0))) }
    ensures kept { IfOk result (λ v. IsWithin v × (env.new.items ≡ env.old.items)) }
{
    let mut total: i128 = 0;
    for i in 0..parts.len() {
        let x = eval_number(alloc, &parts[i], env)?;
        match cf_num::add(total, x) {
            Some(z) => total = z,
            None => return Err(Stop::Past),
        }
    }
    Ok(total)
}

#[cycle(eval)]
fn eval_best(alloc: Global, side: Side, parts: &[Code], env: &mut Vec<Value>) -> Result<i128, Stop>
    ensures told { NumberAnswer result (as_number (best_reached (better_of side) (code_trees parts.now) (plains env.old.items) None)) }
    ensures kept { IfOk result (λ v. IsWithin v × (env.new.items ≡ env.old.items)) }
{
    let mut best: Option<i128> = None;
    for i in 0..parts.len() {
        let x = eval_number(alloc, &parts[i], env)?;
        best = Some(better(side, best, x));
    }
    Ok(best.unwrap_or(0))
}

#[cycle(eval)]
fn eval_join(alloc: Global, how: Join, parts: &[Code], env: &mut Vec<Value>) -> Result<Set, Stop>
    ensures told { SetAnswer result (as_set (join_reached (join_of how) (code_trees parts.now) (plains env.old.items) None)) }
    ensures kept { OnOk result (env.new.items ≡ env.old.items) }
{
    let mut runs = Vec::new(alloc);
    for i in 0..parts.len() {
        let more = eval_set(alloc, &parts[i], env)?;
        join_more(alloc, how, &mut runs, more)?;
    }
    Ok(join_runs(alloc, how, runs)?)
}

// What the first arm gives whose needs hold at some tuple.
#[cycle(eval)]
fn eval_arms(alloc: Global, arms: &[Arm], env: &mut Vec<Value>) -> Result<Option<Vec<Value>>, Stop>
    ensures told { FoundAnswer result (arms_reached (arm_trees arms.now) (plains env.old.items)) }
    ensures kept { IfOk result (λ v. IsFoundFit v × (env.new.items ≡ env.old.items)) }
{
    for i in 0..arms.len() {
        let found = eval_arm(alloc, &arms[i], env)?;
        if found.is_some() {
            return Ok(found);
        }
    }
    Ok(None)
}

// What the arm gives at the first tuple at which its needs hold. A count that stands still at its
// end is that of no target; after so many tuples this answers want of memory.
#[cycle(eval)]
fn eval_arm(alloc: Global, arm: &Arm, env: &mut Vec<Value>) -> Result<Option<Vec<Value>>, Stop>
    ensures told { FoundAnswer result (arm_reached (arm_tree arm.now) (plains env.old.items)) }
    ensures kept { IfOk result (λ v. IsFoundFit v × (env.new.items ≡ env.old.items)) }
{
    let size = env.len();
    let count = count_of(&arm.bounds);
    for index in 0..count {
        push_tuple(&arm.bounds, index, env)?;
        let found = try_arm(alloc, arm, env)?;
        env.truncate(size);
        if found.is_some() {
            return Ok(found);
        }
    }
    if count == u64::MAX {
        return Err(Stop::NoMemory);
    }
    Ok(None)
}

// What the arm gives at the search values that stand last, if its needs hold there. It leaves its
// lets behind.
#[cycle(eval)]
fn try_arm(alloc: Global, arm: &Arm, env: &mut Vec<Value>) -> Result<Option<Vec<Value>>, Stop>
    ensures told { FoundAnswer result (try_reached (arm_tree arm.now) (plains env.old.items)) }
    ensures kept { IfOk result (λ v. IsFoundFit v × Extends env.old.items env.new.items) }
{
    if !run_items(alloc, &arm.items, env)? {
        return Ok(None);
    }
    let all = eval_all(alloc, &arm.gives, env)?;
    Ok(Some(all))
}

// Whether all needs hold, up to the first that fails.
#[cycle(eval)]
fn run_items(alloc: Global, items: &[Item], env: &mut Vec<Value>) -> Result<bool, Stop>
    ensures told { ItemsAnswer result (plains env.new.items) (items_reached (item_trees items.now) (plains env.old.items)) }
    ensures kept { OnOk result (Extends env.old.items env.new.items) }
{
    for i in 0..items.len() {
        if !run_item(alloc, &items[i], env)? {
            return Ok(false);
        }
    }
    Ok(true)
}

#[cycle(eval)]
fn run_item(alloc: Global, item: &Item, env: &mut Vec<Value>) -> Result<bool, Stop>
    ensures told { ItemsAnswer result (plains env.new.items) (item_reached (item_tree item.now) (plains env.old.items)) }
    ensures kept { OnOk result (Extends env.old.items env.new.items) }
{
    match item {
        Item::Let(code) => {
            bind(alloc, code, env)?;
            Ok(true)
        }
        Item::Need(code) => eval_truth(alloc, code, env),
    }
}

// Binds what the code gives.
#[cycle(eval)]
fn bind(alloc: Global, code: &Code, env: &mut Vec<Value>) -> Result<(), Stop>
    ensures told { MoreAnswer result (plains env.old.items) (plains env.new.items) (reached (code_tree code.now) (plains env.old.items)) }
    ensures kept { OnOk result (Extends env.old.items env.new.items) }
{
    match known(code, env) {
        Some(z) => push_narrow(z, env),
        None => bind_exact(alloc, code, env),
    }
}

#[cycle(eval)]
#[inline(never)]
#[tactic(auto, using(crate::proofs::FormLemmas::number_ok, crate::proofs::FormLemmas::number_stop))]
fn bind_exact(alloc: Global, code: &Code, env: &mut Vec<Value>) -> Result<(), Stop>
    ensures told { MoreAnswer result (plains env.old.items) (plains env.new.items) (reached (code_tree code.now) (plains env.old.items)) }
    ensures kept { OnOk result (Extends env.old.items env.new.items) }
{
    match kind_of(code) {
        Kind::Number => {
            let z = eval_number(alloc, code, env)?;
            push_met(z, env)
        }
        _ => {
            let more = eval(alloc, code, env)?;
            push_given(more, env)
        }
    }
}
