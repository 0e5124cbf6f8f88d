//! Parameters of functions that stand nowhere in them.
ghost use Rattle.std.specs.Prelude.{◌≡◌, ◌++◌, ◌∷◌, [], if◌then◌else◌, map, IfOk, OnOk};
ghost use Rattle.cf_tree.specs.DefView.{def_tree};
ghost use Rattle.cf_tree.specs.ExprView.{aim_expr, expr_tree, expr_trees, given_expr, match_arm_tree, match_arm_trees};
ghost use Rattle.cf_advice.specs.Unused.{all_unused, most_params, stands as the_stands, stands_among as the_stands_among, stands_in_aim as the_stands_in_aim};
ghost use Rattle.cf_advice.specs.Unused.{stands_in_arm as the_stands_in_arm, stands_in_arms as the_stands_in_arms, stands_in_given as the_stands_in_given};
ghost use Rattle.cf_advice.specs.Unused.{unused as the_unused, unused_from};

use cf_tree::{Aim, Def, Expr, Given, MatchArm, NoMemory, Param, add_u32, rel_holds};
use std::alloc::Global;

/// Of a function with more parameters none is told.
const MOST_PARAMS: usize = 1000;

/// The parameters of functions that stand nowhere in them, function by function. Of a function with more than 1,000
/// parameters none is told.
///
/// # Errors
/// `NoMemory` where memory ran out.
pub fn unused_params(alloc: Global, defs: &[Def]) -> Result<Vec<&Param>, NoMemory>
    ensures { IfOk result (λ ps. map (λ p. p.now) ps.items ≡ all_unused (map def_tree defs.now)) }
{
    let mut out = Vec::new(alloc);
    for def in defs {
        put_unused(&mut out, def)?;
    }
    Ok(out)
}

// Adds those of a function.
fn put_unused<'a>(out: &mut Vec<&'a Param>, def: &'a Def) -> Result<(), NoMemory>
    ensures { OnOk result (map (λ p. p.now) out.new.items ≡ map (λ p. p.now) out.old.items ++ the_unused (def_tree def.now)) }
{
    if MOST_PARAMS < def.params.len() {
        return Ok(());
    }
    put_unused_in(out, &def.params, &def.body)
}

// Adds those of these parameters that do not stand in the body.
#[tactic(auto, using(crate::proofs::UnusedLaws::one_more))]
fn put_unused_in<'a>(
    out: &mut Vec<&'a Param>,
    params: &'a [Param],
    body: &Expr,
) -> Result<(), NoMemory>
    ensures { OnOk result (map (λ p. p.now) out.new.items ≡ map (λ p. p.now) out.old.items ++ unused_from 0 params.now (expr_tree body.now)) }
{
    let mut level: u32 = 0;
    let mut rest = params;
    while let Some((param, more)) = rest.split_first() {
        put_unless(out, param, stands(body, level))?;
        level = add_u32(level, 1)?;
        rest = more;
    }
    Ok(())
}

fn put_unless<'a>(out: &mut Vec<&'a Param>, param: &'a Param, is_used: bool) -> Result<(), NoMemory>
    ensures { OnOk result (map (λ p. p.now) out.new.items ≡ map (λ p. p.now) out.old.items ++ (if is_used then [] else param.now ∷ [])) }
{
    if !is_used {
        out.push(param)?;
    }
    Ok(())
}

// Whether the variable of the level stands in an expression.
#[cycle(stands)]
fn stands(expr: &Expr, level: u32) -> bool
    ensures { result ≡ the_stands level (expr_tree expr.now) }
{
    match expr {
        Expr::Lit(_) | Expr::Truth(_) => false,
        Expr::Var(x) => level == *x,
        Expr::SetOf(parts)
        | Expr::Tuple(parts)
        | Expr::Chain { parts, .. }
        | Expr::Min(parts)
        | Expr::Max(parts)
        | Expr::Call { args: parts, .. } => stands_among(parts, level),
        Expr::Neg(a)
        | Expr::Not(a)
        | Expr::Abs(a)
        | Expr::Card(a)
        | Expr::Divides { of: a, .. }
        | Expr::Div { of: a, .. }
        | Expr::Mod { of: a, .. } => stands(a, level),
        Expr::Binary {
            left: a,
            right: b,
            ..
        }
        | Expr::Let {
            value: a,
            body: b,
            ..
        } => stands(a, level) || stands(b, level),
        Expr::If { test, yes, no } => stands(test, level)
            || stands(yes, level)
            || stands(no, level),
        Expr::Choose { rel, .. } => rel_holds(rel, level),
        Expr::ChooseWhere {
            given,
            rel,
            aim,
            ..
        } => stands_in_given(given, level) || stands(rel, level) || stands_in_aim(aim, level),
        Expr::Match { of, arms, .. } => stands(of, level) || stands_in_arms(arms, level),
    }
}

#[cycle(stands)]
fn stands_among(exprs: &[Expr], level: u32) -> bool
    ensures { result ≡ the_stands_among level (expr_trees exprs.now) }
{
    for expr in exprs {
        if stands(expr, level) {
            return true;
        }
    }
    false
}

#[cycle(stands)]
fn stands_in_arms(arms: &[MatchArm], level: u32) -> bool
    ensures { result ≡ the_stands_in_arms level (match_arm_trees arms.now) }
{
    for arm in arms {
        if stands_in_arm(arm, level) {
            return true;
        }
    }
    false
}

#[cycle(stands)]
fn stands_in_arm(arm: &MatchArm, level: u32) -> bool
    ensures { result ≡ the_stands_in_arm level (match_arm_tree arm.now) }
{
    stands(&arm.body, level)
}

#[cycle(stands)]
fn stands_in_given(given: &Given, level: u32) -> bool
    ensures { result ≡ the_stands_in_given level (given_expr given.now) }
{
    match given {
        Given::Always => false,
        Given::Where(a) => stands(a, level),
    }
}

#[cycle(stands)]
fn stands_in_aim(aim: &Aim, level: u32) -> bool
    ensures { result ≡ the_stands_in_aim level (aim_expr aim.now) }
{
    match aim {
        Aim::Any => false,
        Aim::Least(a) | Aim::Greatest(a) => stands(a, level),
    }
}
