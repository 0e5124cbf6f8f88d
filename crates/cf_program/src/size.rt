//! The weights and unfolded depths of functions.
ghost use Rattle.std.specs.Prelude.{◌≡◌, ◌+◌, max, slice_index, length, map, option_map, Some, IfOk};
ghost use Rattle.cf_tree.specs.DefView.{def_tree};
ghost use Rattle.cf_tree.specs.ExprView.{expr_tree, expr_trees, match_arm_tree, match_arm_trees};
ghost use Rattle.cf_tree.specs.RelSize.{capped};
ghost use Rattle.cf_program.specs.Counted.{are_zero as are_zero_of, test_weight as test_weight_of, test_depth as test_depth_of, tests_weight as tests_weight_of, any_weight as any_weight_of, tests_depth as tests_depth_of, any_depth as any_depth_of, picks_weight as picks_weight_of, picks_depth as picks_depth_of, last_level as last_level_of, variables_weight as variables_weight_of, variables_depth as variables_depth_of, weight_of, weight_of_all, weight_of_arm, weight_of_arms, depth_of, depth_of_all, depth_of_arm, depth_of_arms};
ghost use Rattle.cf_program.specs.Size.{weights, depths, first_above, passed_at};

use cf_tree::{Def, Expr, MatchArm, NoMemory, expr_leaf, expr_over_one, expr_over_two, to_u32};
use std::alloc::Global;

// The greatest weight of a function.
const WEIGHT_LIMIT: u64 = 1_000_000;

// The greatest unfolded depth of a function.
const DEPTH_LIMIT: u64 = 200;

/// A function that passes a limit: its number, counted from 0, and its size, which stands still at
/// 2^64 - 1.
#[derive(Clone, Copy, Debug, PartialEq, Eq)]
pub struct Passed {
    pub function: u32,
    pub size: u64,
}

/// The first function whose weight passes 1,000,000.
pub fn first_too_heavy(alloc: Global, defs: &[Def]) -> Result<Option<Passed>, NoMemory>
    ensures { IfOk result (λ o. option_map passed_at o ≡ first_above 1000000 0 (weights (map def_tree defs.now))) }
{
    let mut known = Vec::new(alloc);
    for def in defs {
        let weight = weight(&known, &def.body);
        if weight > WEIGHT_LIMIT {
            return passed_behind(&known, weight);
        }
        known.push(weight)?;
    }
    Ok(None)
}

/// The first function whose unfolded depth passes 200.
pub fn first_too_deep(alloc: Global, defs: &[Def]) -> Result<Option<Passed>, NoMemory>
    ensures { IfOk result (λ o. option_map passed_at o ≡ first_above 200 0 (depths (map def_tree defs.now))) }
{
    let mut known = Vec::new(alloc);
    for def in defs {
        let depth = depth(&known, &def.body);
        if depth > DEPTH_LIMIT {
            return passed_behind(&known, depth);
        }
        known.push(depth)?;
    }
    Ok(None)
}

// The function behind those that are known, which passes a limit.
fn passed_behind(known: &[u64], size: u64) -> Result<Option<Passed>, NoMemory>
    ensures { IfOk result (λ o. option_map passed_at o ≡ Some (length known.now, size)) }
{
    let function = to_u32(known.len())?;
    Ok(Some(Passed { function, size }))
}

// What is known of an earlier function.
fn of_callee(calls: &[u64], def: u32) -> u64
    ensures { result ≡ slice_index calls.now def }
{
    match calls.get(def as usize) {
        None => 0,
        Some(known) => *known,
    }
}

// Whether all factors of a pattern are 0.
fn are_zero(factors: &[i128]) -> bool
    ensures { result ≡ are_zero_of factors.now }
{
    factors.iter().all(|factor| *factor == 0)
}

// The nodes of the test whether an arm fits.
fn test_weight(arm: &MatchArm) -> u64
    ensures { result ≡ test_weight_of (match_arm_tree arm.now) }
{
    if are_zero(&arm.factors) { 3 } else { 4 }
}

// The depth of the test whether an arm fits.
fn test_depth(arm: &MatchArm) -> u64
    ensures { result ≡ test_depth_of (match_arm_tree arm.now) }
{
    if are_zero(&arm.factors) { 2 } else { 3 }
}

// The nodes of the tests of these arms, each joined to those before.
fn tests_weight(arms: &[MatchArm]) -> u64
    ensures { result ≡ capped (tests_weight_of (match_arm_trees arms.now)) }
{
    let mut total: u64 = 0;
    for arm in arms {
        total = total.saturating_add(test_weight(arm)).saturating_add(1);
    }
    total
}

// The nodes of the test whether any arm fits.
fn any_weight(arms: &[MatchArm]) -> u64
    ensures { result ≡ capped (any_weight_of (match_arm_trees arms.now)) }
{
    match arms.split_first() {
        None => 1,
        Some((arm, more)) => tests_weight(more).saturating_add(test_weight(arm)),
    }
}

// The depth of the tests of these arms, joined to one of this depth before them.
fn tests_depth(before: u64, arms: &[MatchArm]) -> u64
    ensures { result ≡ capped (tests_depth_of before (match_arm_trees arms.now)) }
{
    let mut depth = before;
    for arm in arms {
        depth = depth.max(test_depth(arm)).saturating_add(1);
    }
    depth
}

// The depth of the test whether any arm fits.
fn any_depth(arms: &[MatchArm]) -> u64
    ensures { result ≡ capped (any_depth_of (match_arm_trees arms.now)) }
{
    match arms.split_first() {
        None => 1,
        Some((arm, more)) => tests_depth(test_depth(arm), more),
    }
}

// The nodes of the tests that pick an arm, each with its `if`. The last arm has none, and without
// arms there is the empty tuple.
fn picks_weight(arms: &[MatchArm]) -> u64
    ensures { result ≡ capped (picks_weight_of (match_arm_trees arms.now)) }
{
    let mut total: u64 = 0;
    let mut rest = arms;
    while let Some((arm, more)) = rest.split_first() {
        match more.split_first() {
            None => return total,
            Some(_) => {
                total = total.saturating_add(test_weight(arm)).saturating_add(1);
                rest = more;
            }
        }
    }
    total.saturating_add(1)
}

// The depth of the deepest test that picks an arm.
fn picks_depth(arms: &[MatchArm]) -> u64
    ensures { result ≡ capped (picks_depth_of 0 (match_arm_trees arms.now)) }
{
    let mut deepest: u64 = 0;
    let mut level: u64 = 0;
    let mut rest = arms;
    while let Some((arm, more)) = rest.split_first() {
        match more.split_first() {
            None => return deepest,
            Some(_) => {
                level = level.saturating_add(1);
                deepest = deepest.max(level.saturating_add(test_depth(arm)));
                rest = more;
            }
        }
    }
    deepest
}

// The depth of the value of a match, of this depth itself, where an arm fits it.
fn fitting_depth(value: u64, arms: &[MatchArm]) -> u64
    ensures { result ≡ capped (1 + max value (1 + max (any_depth_of (match_arm_trees arms.now)) 2)) }
{
    any_depth(arms)
        .max(2)
        .saturating_add(1)
        .max(value)
        .saturating_add(1)
}

// How many tests stand before the last arm.
#[tactic(auto, using(crate::proofs::CountedLaws::last_level_is))]
fn last_level(arms: &[MatchArm]) -> u64
    ensures { result ≡ last_level_of (match_arm_trees arms.now) }
{
    arms.len().saturating_sub(1) as u64
}

// The nodes of the choose of a pattern's variables, and of the `let` that binds them.
fn variables_weight(factors: &[i128]) -> u64
    ensures { result ≡ capped (variables_weight_of factors.now) }
{
    match factors.split_first() {
        None => 0,
        Some((_, more)) => (more.len() as u64).saturating_mul(4).saturating_add(9),
    }
}

// The depth of a body with a pattern's variables.
fn variables_depth(factors: &[i128], body: u64) -> u64
    ensures { result ≡ capped (variables_depth_of factors.now body) }
{
    match factors.split_first() {
        None => body,
        Some((_, more)) => (more.len() as u64)
            .saturating_add(5)
            .max(body)
            .saturating_add(1),
    }
}

// How many nodes an expression of language 2 has, with those of called functions, but never more
// than the greatest number of 64 bits.
#[cycle(weight)]
fn weight(calls: &[u64], expr: &Expr) -> u64
    ensures { result ≡ capped (weight_of (λ f. slice_index calls.now f) (expr_tree expr.now)) }
{
    match expr {
        expr_leaf!() => 1,
        Expr::SetOf(parts) | Expr::Tuple(parts) => weight_all(calls, parts).saturating_add(1),
        expr_over_one!(a) => weight(calls, a).saturating_add(1),
        expr_over_two!(a, b) => weight(calls, a)
            .saturating_add(weight(calls, b))
            .saturating_add(1),
        Expr::If { test, yes, no } => weight(calls, test)
            .saturating_add(weight(calls, yes))
            .saturating_add(weight(calls, no))
            .saturating_add(1),
        Expr::Call { def, args } => weight_all(calls, args)
            .saturating_add(of_callee(calls, *def))
            .saturating_add(1),
        Expr::Choose { rel, .. } => rel.size().saturating_add(1),
        Expr::Match { of, arms, .. } => weight(calls, of)
            .saturating_add(any_weight(arms))
            .saturating_add(picks_weight(arms))
            .saturating_add(weight_arms(calls, arms))
            .saturating_add(6),
        Expr::Chain { .. } | Expr::Min(_) | Expr::Max(_) | Expr::ChooseWhere { .. } => 0,
    }
}

#[cycle(weight)]
fn weight_all(calls: &[u64], exprs: &[Expr]) -> u64
    ensures { result ≡ capped (weight_of_all (λ f. slice_index calls.now f) (expr_trees exprs.now)) }
{
    let mut total: u64 = 0;
    for expr in exprs {
        total = total.saturating_add(weight(calls, expr));
    }
    total
}

#[cycle(weight)]
fn weight_arm(calls: &[u64], arm: &MatchArm) -> u64
    ensures { result ≡ capped (weight_of_arm (λ f. slice_index calls.now f) (match_arm_tree arm.now)) }
{
    variables_weight(&arm.factors).saturating_add(weight(calls, &arm.body))
}

#[cycle(weight)]
fn weight_arms(calls: &[u64], arms: &[MatchArm]) -> u64
    ensures { result ≡ capped (weight_of_arms (λ f. slice_index calls.now f) (match_arm_trees arms.now)) }
{
    let mut total: u64 = 0;
    for arm in arms {
        total = total.saturating_add(weight_arm(calls, arm));
    }
    total
}

// How deep an expression of language 2 is, with the functions that it calls, but never more than
// the greatest number of 64 bits.
#[cycle(depth)]
fn depth(calls: &[u64], expr: &Expr) -> u64
    ensures { result ≡ capped (depth_of (λ f. slice_index calls.now f) (expr_tree expr.now)) }
{
    match expr {
        expr_leaf!() => 1,
        Expr::SetOf(parts) | Expr::Tuple(parts) => depth_all(calls, parts).saturating_add(1),
        expr_over_one!(a) => depth(calls, a).saturating_add(1),
        expr_over_two!(a, b) => depth(calls, a).max(depth(calls, b)).saturating_add(1),
        Expr::If { test, yes, no } => depth(calls, test)
            .max(depth(calls, yes))
            .max(depth(calls, no))
            .saturating_add(1),
        Expr::Call { def, args } => depth_all(calls, args)
            .max(of_callee(calls, *def))
            .saturating_add(1),
        Expr::Choose { rel, .. } => rel.depth().saturating_add(1),
        Expr::Match { of, arms, .. } => fitting_depth(depth(calls, of), arms)
            .max(picks_depth(arms))
            .max(depth_arms(calls, last_level(arms), arms))
            .saturating_add(1),
        Expr::Chain { .. } | Expr::Min(_) | Expr::Max(_) | Expr::ChooseWhere { .. } => 0,
    }
}

#[cycle(depth)]
fn depth_all(calls: &[u64], exprs: &[Expr]) -> u64
    ensures { result ≡ capped (depth_of_all (λ f. slice_index calls.now f) (expr_trees exprs.now)) }
{
    let mut deepest: u64 = 0;
    for expr in exprs {
        deepest = deepest.max(depth(calls, expr));
    }
    deepest
}

#[cycle(depth)]
#[tactic(auto, using(crate::proofs::CountedLaws::variables_depth_capped))]
fn depth_arm(calls: &[u64], arm: &MatchArm) -> u64
    ensures { result ≡ capped (depth_of_arm (λ f. slice_index calls.now f) (match_arm_tree arm.now)) }
{
    variables_depth(&arm.factors, depth(calls, &arm.body))
}

#[cycle(depth)]
fn depth_arms(calls: &[u64], last: u64, arms: &[MatchArm]) -> u64
    ensures { result ≡ capped (depth_of_arms (λ f. slice_index calls.now f) 0 last (match_arm_trees arms.now)) }
{
    let mut deepest: u64 = 0;
    let mut level: u64 = 0;
    for arm in arms {
        level = level.saturating_add(1);
        deepest = deepest.max(depth_arm(calls, arm).saturating_add(level.min(last)));
    }
    deepest
}
