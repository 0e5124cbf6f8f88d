//! The chooses and tests that a match stands for.
#![tactic(auto, using(crate::proofs::FormLaws::forms))]

ghost use Rattle.std.specs.Prelude.{◌≡◌, suc, [], ◌∷◌, IfOk, map, length, reverse, All, MatchBool};
ghost use Rattle.cf_num.specs.Limit.{IsWithin};
ghost use Rattle.cf_tree.specs.declared.base.Base.TheVariants as bases;
ghost use Rattle.cf_tree.specs.declared.base.Order.TheVariants.{Eq};
ghost use Rattle.cf_tree.specs.declared.raw.BinOp.TheVariants.{Or};
ghost use Rattle.cf_tree.specs.ExprTree.{expr_lit, expr_tuple, expr_binary, expr_choose, expr_if, expr_let, no_exprs};
ghost use Rattle.cf_tree.specs.ExprView.{expr_tree, match_arm_tree, match_arm_trees};
ghost use Rattle.cf_tree.specs.RelTree.{rel_false, rel_compare, term_var};
ghost use Rattle.cf_program.specs.Lowered.{any_test, any_fits, pattern_term, unless_last, fitting};
ghost use Rattle.cf_match.specs.Matches.{class_of_arm};
ghost use Rattle.cf_match.specs.Forms.{class_test, fits_test, with_arm, picked_of, match_of};

use crate::class::{Class, class_of};
use crate::pattern::{last_level, numbers, pattern_relation};
use cf_tree::{Base, BinOp, Expr, MatchArm, NoMemory, Order, Param, Rel, copy_params};
use std::alloc::Global;

// A match whose value and bodies are lowered.
pub(crate) fn match_form(
    alloc: Global,
    number: u32,
    scope: &[Param],
    of: Box<Expr>,
    arms: &[MatchArm],
    bodies: Vec<Expr>,
) -> Result<Expr, NoMemory>
    ensures { IfOk result (λ e. expr_tree e ≡ match_of number scope.now (expr_tree of.value) (match_arm_trees arms.now) (map expr_tree bodies.items)) }
{
    let level = last_level(scope)?;
    let mut bodies = bodies;
    bodies.reverse();
    let body = picked(alloc, scope, level, arms, &mut bodies)?;
    let value = Box::new(alloc, fitting(alloc, number, scope, level, of, arms)?)?;
    Ok(Expr::Let {
        count: 1,
        value,
        body,
    })
}

// The matched value, where an arm fits it; else the choose of the match's number, which has no solution.
fn fitting(
    alloc: Global,
    number: u32,
    scope: &[Param],
    level: u32,
    of: Box<Expr>,
    arms: &[MatchArm],
) -> Result<Expr, NoMemory>
    ensures { IfOk result (λ e. expr_tree e ≡ fitting number level scope.now (expr_tree of.value) (match_arm_trees arms.now)) }
{
    let test = any_fits(alloc, level, arms)?;
    let yes = Box::new(alloc, Expr::Var(level))?;
    let no = Box::new(alloc, unfit(alloc, number, scope)?)?;
    Ok(Expr::Let {
        count: 1,
        value: of,
        body: Box::new(alloc, Expr::If { test, yes, no })?,
    })
}

// A choose of a number that has no solution.
fn unfit(alloc: Global, number: u32, scope: &[Param]) -> Result<Expr, NoMemory>
    ensures { IfOk result (λ e. expr_tree e ≡ expr_choose number scope.now (bases.Int ∷ []) rel_false) }
{
    let mut outputs = Vec::new(alloc);
    outputs.push(Base::Int)?;
    Ok(Expr::Choose {
        number,
        scope: copy_params(alloc, scope)?,
        outputs,
        rel: Rel::False,
    })
}

// The first arm that fits the value of that level; the bodies of the arms stand last first.
fn picked(
    alloc: Global,
    scope: &[Param],
    level: u32,
    arms: &[MatchArm],
    bodies: &mut Vec<Expr>,
) -> Result<Box<Expr>, NoMemory>
    ensures { IfOk result (λ e. expr_tree e.value ≡ picked_of level scope.now (match_arm_trees arms.now) (map expr_tree (reverse bodies.old.items))) }
{
    let Some((arm, rest)) = arms.split_first() else {
        return nothing(alloc);
    };
    let Some(body) = bodies.pop() else {
        return nothing(alloc);
    };
    let body = Box::new(alloc, body)?;
    let other = picked(alloc, scope, level, rest, bodies)?;
    first_picked(alloc, scope, level, arm, body, rest, other)
}

// No values.
fn nothing(alloc: Global) -> Result<Box<Expr>, NoMemory>
    ensures { IfOk result (λ e. expr_tree e.value ≡ expr_tuple no_exprs) }
{
    Ok(Box::new(alloc, Expr::Tuple(Vec::new(alloc)))?)
}

// An arm with this body where it fits, and else the rest.
fn first_picked(
    alloc: Global,
    scope: &[Param],
    level: u32,
    arm: &MatchArm,
    body: Box<Expr>,
    arms: &[MatchArm],
    other: Box<Expr>,
) -> Result<Box<Expr>, NoMemory>
    ensures { IfOk result (λ e. expr_tree e.value ≡ unless_last (fits_test level (match_arm_tree arm.now))
        (with_arm level scope.now (match_arm_tree arm.now) (expr_tree body.value)) (match_arm_trees arms.now) (expr_tree other.value)) }
{
    let body = with_variables(alloc, scope, level, arm, body)?;
    unless_last(alloc, level, arm, body, arms, other)
}

// The body of an arm where it fits, and else the rest; the last arm needs no test.
fn unless_last(
    alloc: Global,
    level: u32,
    arm: &MatchArm,
    body: Box<Expr>,
    arms: &[MatchArm],
    other: Box<Expr>,
) -> Result<Box<Expr>, NoMemory>
    ensures { IfOk result (λ e. expr_tree e.value ≡ unless_last (fits_test level (match_arm_tree arm.now)) (expr_tree body.value)
        (match_arm_trees arms.now) (expr_tree other.value)) }
{
    let Some((_next, _more)) = arms.split_first() else {
        return Ok(body);
    };
    let test = test(alloc, level, arm)?;
    branches(alloc, test, body, other)
}

// The one where the test holds, and else the other.
fn branches(
    alloc: Global,
    test: Box<Expr>,
    yes: Box<Expr>,
    no: Box<Expr>,
) -> Result<Box<Expr>, NoMemory>
    ensures { IfOk result (λ e. expr_tree e.value ≡ expr_if (expr_tree test.value) (expr_tree yes.value) (expr_tree no.value)) }
{
    Ok(Box::new(alloc, Expr::If { test, yes, no })?)
}

// The body of an arm, behind the choose of its variables.
fn with_variables(
    alloc: Global,
    scope: &[Param],
    level: u32,
    arm: &MatchArm,
    body: Box<Expr>,
) -> Result<Box<Expr>, NoMemory>
    ensures { IfOk result (λ e. expr_tree e.value ≡ with_arm level scope.now (match_arm_tree arm.now) (expr_tree body.value)) }
{
    if arm.factors.is_empty() {
        return Ok(body);
    }
    let value = chosen(alloc, scope, level, arm)?;
    bound(alloc, &arm.factors, value, body)
}

// The body behind the variables of these factors, which have the parts of the value.
fn bound(
    alloc: Global,
    factors: &[i128],
    value: Box<Expr>,
    body: Box<Expr>,
) -> Result<Box<Expr>, NoMemory>
    ensures { IfOk result (λ e. expr_tree e.value ≡ expr_let (length factors.now) (expr_tree value.value) (expr_tree body.value)) }
{
    let Ok(count) = u32::try_from(factors.len()) else {
        return Err(NoMemory);
    };
    Ok(Box::new(alloc, Expr::Let { count, value, body })?)
}

// The choose of the variables of an arm.
fn chosen(alloc: Global, scope: &[Param], level: u32, arm: &MatchArm) -> Result<Box<Expr>, NoMemory>
    ensures { IfOk result (λ e. expr_tree e.value ≡ expr_choose arm.now.number scope.now (map (λ _. bases.Int) arm.now.factors.items)
        (rel_compare Eq (term_var level) (pattern_term (suc level) arm.now.factors.items arm.now.constant))) }
{
    let scope = copy_params(alloc, scope)?;
    let outputs = numbers(alloc, &arm.factors)?;
    let rel = pattern_relation(alloc, level, &arm.factors, arm.constant)?;
    let choose = Expr::Choose {
        number: arm.number,
        scope,
        outputs,
        rel,
    };
    Ok(Box::new(alloc, choose)?)
}

// Whether any of the arms fits.
fn any_fits(alloc: Global, level: u32, arms: &[MatchArm]) -> Result<Box<Expr>, NoMemory>
    ensures { IfOk result (λ e. expr_tree e.value ≡ any_fits level (match_arm_trees arms.now)) }
{
    let Some((arm, rest)) = arms.split_first() else {
        return Ok(Box::new(alloc, Expr::Truth(false))?);
    };
    let first = test(alloc, level, arm)?;
    any_test(alloc, level, first, rest)
}

// Whether any of the arms fits, with the tests before on the left.
fn any_test(
    alloc: Global,
    level: u32,
    before: Box<Expr>,
    arms: &[MatchArm],
) -> Result<Box<Expr>, NoMemory>
    ensures { IfOk result (λ e. expr_tree e.value ≡ any_test level (expr_tree before.value) (match_arm_trees arms.now)) }
{
    let mut tests = before;
    let mut rest = arms;
    while let Some((arm, more)) = rest.split_first() {
        tests = or_test(alloc, level, tests, arm)?;
        rest = more;
    }
    Ok(tests)
}

// Whether the test before holds or the arm fits.
fn or_test(
    alloc: Global,
    level: u32,
    before: Box<Expr>,
    arm: &MatchArm,
) -> Result<Box<Expr>, NoMemory>
    ensures { IfOk result (λ e. expr_tree e.value ≡ expr_binary Or (expr_tree before.value) (fits_test level (match_arm_tree arm.now))) }
{
    let test = test(alloc, level, arm)?;
    binary(alloc, BinOp::Or, before, test)
}

fn binary(
    alloc: Global,
    op: BinOp,
    left: Box<Expr>,
    right: Box<Expr>,
) -> Result<Box<Expr>, NoMemory>
    ensures { IfOk result (λ e. expr_tree e.value ≡ expr_binary op (expr_tree left.value) (expr_tree right.value)) }
{
    Ok(Box::new(alloc, Expr::Binary { op, left, right })?)
}

// The test whether an arm fits the number of that level.
fn test(alloc: Global, level: u32, arm: &MatchArm) -> Result<Box<Expr>, NoMemory>
    ensures { IfOk result (λ e. expr_tree e.value ≡ fits_test level (match_arm_tree arm.now)) }
{
    class_test(alloc, level, arm_class(arm)?)
}

// The test whether the number of that level is in a class.
fn class_test(alloc: Global, level: u32, class: Class) -> Result<Box<Expr>, NoMemory>
    ensures { IfOk result (λ e. expr_tree e.value ≡ class_test level class) }
{
    let equal = BinOp::Compare(Order::Eq);
    let number = Box::new(alloc, Expr::Var(level))?;
    match class {
        Class::Point(c) => binary(alloc, equal, number, literal(alloc, c)?),
        Class::Residue { g, r } => {
            let rest = Box::new(alloc, Expr::Mod { of: number, k: g })?;
            binary(alloc, equal, rest, literal(alloc, r)?)
        }
    }
}

fn literal(alloc: Global, k: i128) -> Result<Box<Expr>, NoMemory>
    ensures { IfOk result (λ e. expr_tree e.value ≡ expr_lit k) }
{
    Ok(Box::new(alloc, Expr::Lit(k))?)
}

/// The class of an arm.
pub(crate) fn arm_class(arm: &MatchArm) -> Result<Class, NoMemory>
    ensures { IfOk result (λ c. c ≡ class_of_arm (match_arm_tree arm.now)) }
{
    // for the proof: each number of a typed program is within the limit
    if !is_within(arm.constant) || !are_within(&arm.factors) {
        return Err(NoMemory);
    }
    Ok(class_of(&arm.factors, arm.constant))
}

fn is_within(number: i128) -> bool
    ensures { MatchBool result (IsWithin number) (Unit {0}) }
{
    number != i128::MIN
}

fn are_within(numbers: &[i128]) -> bool
    ensures { MatchBool result (All IsWithin numbers.now) (Unit {0}) }
{
    let mut rest = numbers;
    while let Some((number, more)) = rest.split_first() {
        if !is_within(*number) {
            return false;
        }
        rest = more;
    }
    true
}
