//! The matches of a program.
#![tactic(auto, using(crate::proofs::MatchLists::match_lists))]

ghost use Rattle.std.specs.Prelude.{◌≡◌, ◌++◌, IfOk, OnOk, map};
ghost use Rattle.cf_tree.specs.DefView.{def_tree};
ghost use Rattle.cf_tree.specs.ExprView.{expr_tree, expr_trees, match_arm_tree, match_arm_trees};
ghost use Rattle.cf_match.specs.Forms.{body_of};
ghost use Rattle.cf_match.specs.Matches.{match_tree, number_of_arm, matches, matches_all, matches_arms, all_matches, numbers_of, classes_of};

use crate::arms::arm_class;
use crate::class::Class;
use crate::lowered::MatchInfo;
use cf_tree::{Def, Expr, MatchArm, NoMemory};
use std::alloc::Global;

// The matches of functions, in the order of the text.
pub(crate) fn collect(alloc: Global, defs: &[Def]) -> Result<Vec<MatchInfo>, NoMemory>
    ensures { IfOk result (λ all. map match_tree all.items ≡ all_matches (map def_tree defs.now)) }
{
    let mut all = Vec::new(alloc);
    for def in defs {
        collect_expr(alloc, &def.body, &mut all)?;
    }
    Ok(all)
}

// The matches of an expression, behind those found before.
#[cycle(matches)]
fn collect_expr(alloc: Global, expr: &Expr, all: &mut Vec<MatchInfo>) -> Result<(), NoMemory>
    ensures { OnOk result (map match_tree all.new.items ≡ map match_tree all.old.items ++ matches (expr_tree expr.now)) }
{
    match expr {
        Expr::Lit(_)
        | Expr::Truth(_)
        | Expr::Var(_)
        | Expr::Choose { .. }
        | Expr::ChooseWhere { .. } => Ok(()),
        Expr::SetOf(parts)
        | Expr::Tuple(parts)
        | Expr::Chain { parts, .. }
        | Expr::Min(parts)
        | Expr::Max(parts)
        | Expr::Call { args: parts, .. } => collect_all(alloc, parts, all),
        Expr::Neg(a)
        | Expr::Not(a)
        | Expr::Abs(a)
        | Expr::Card(a)
        | Expr::Divides { of: a, .. }
        | Expr::Div { of: a, .. }
        | Expr::Mod { of: a, .. } => collect_expr(alloc, a, all),
        Expr::Binary {
            left: a,
            right: b,
            ..
        }
        | Expr::Let {
            value: a,
            body: b,
            ..
        } => {
            collect_expr(alloc, a, all)?;
            collect_expr(alloc, b, all)?;
            Ok(())
        }
        Expr::If { test, yes, no } => {
            collect_expr(alloc, test, all)?;
            collect_expr(alloc, yes, all)?;
            collect_expr(alloc, no, all)?;
            Ok(())
        }
        Expr::Match {
            number,
            of,
            arms,
            ..
        } => {
            all.push(info(alloc, *number, arms)?)?;
            collect_expr(alloc, of, all)?;
            collect_arms(alloc, arms, all)?;
            Ok(())
        }
    }
}

#[cycle(matches)]
fn collect_all(alloc: Global, exprs: &[Expr], all: &mut Vec<MatchInfo>) -> Result<(), NoMemory>
    ensures { OnOk result (map match_tree all.new.items ≡ map match_tree all.old.items ++ matches_all (expr_trees exprs.now)) }
{
    for expr in exprs {
        collect_expr(alloc, expr, all)?;
    }
    Ok(())
}

#[cycle(matches)]
fn collect_arms(alloc: Global, arms: &[MatchArm], all: &mut Vec<MatchInfo>) -> Result<(), NoMemory>
    ensures { OnOk result (map match_tree all.new.items ≡ map match_tree all.old.items ++ matches_arms (match_arm_trees arms.now)) }
{
    for arm in arms {
        collect_arm(alloc, arm, all)?;
    }
    Ok(())
}

#[cycle(matches)]
fn collect_arm(alloc: Global, arm: &MatchArm, all: &mut Vec<MatchInfo>) -> Result<(), NoMemory>
    ensures { OnOk result (map match_tree all.new.items ≡ map match_tree all.old.items ++ matches (body_of (match_arm_tree arm.now))) }
{
    collect_expr(alloc, &arm.body, all)
}

// What is told of a match.
fn info(alloc: Global, number: u32, arms: &[MatchArm]) -> Result<MatchInfo, NoMemory>
    ensures { IfOk result (λ m. match_tree m ≡ record {
      number = number;
      arms = numbers_of (match_arm_trees arms.now);
      classes =
          classes_of (match_arm_trees arms.now);
    }) }
{
    Ok(MatchInfo {
        number,
        arms: arm_numbers(alloc, arms)?,
        classes: arm_classes(alloc, arms)?,
    })
}

fn arm_numbers(alloc: Global, arms: &[MatchArm]) -> Result<Vec<u32>, NoMemory>
    ensures { IfOk result (λ all. all.items ≡ numbers_of (match_arm_trees arms.now)) }
{
    let mut all = Vec::new(alloc);
    for arm in arms {
        all.push(arm_number(arm))?;
    }
    Ok(all)
}

fn arm_classes(alloc: Global, arms: &[MatchArm]) -> Result<Vec<Class>, NoMemory>
    ensures { IfOk result (λ all. all.items ≡ classes_of (match_arm_trees arms.now)) }
{
    let mut all = Vec::new(alloc);
    for arm in arms {
        all.push(arm_class(arm)?)?;
    }
    Ok(all)
}

fn arm_number(arm: &MatchArm) -> u32
    ensures { result ≡ number_of_arm (match_arm_tree arm.now) }
{
    arm.number
}
