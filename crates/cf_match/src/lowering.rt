//! The lowered forms of expressions and functions.
#![tactic(auto, using(crate::proofs::FormLaws::forms))]

ghost use Rattle.std.specs.Prelude.{◌≡◌, IfOk, map, length, ◌-◌};
ghost use Rattle.cf_tree.specs.DefView.{def_tree};
ghost use Rattle.cf_tree.specs.ExprTree.{expr_chain};
ghost use Rattle.cf_tree.specs.ExprView.{expr_tree, expr_trees, match_arm_tree, match_arm_trees};
ghost use Rattle.cf_program.specs.Lowered.{lowered, all_lowered, lowered_def};
ghost use Rattle.cf_match.specs.Forms.{over_list, over_one, over_two, body_of, bodies_lowered};

use crate::arms::match_form;
use cf_tree::{Def, Expr, MatchArm, NoMemory, Order, copy_params};
use std::alloc::Global;

// Functions with their matches as the chooses that they stand for.
pub(crate) fn lower_defs(alloc: Global, defs: &[Def]) -> Result<Vec<Def>, NoMemory>
    ensures { IfOk result (λ new. map def_tree new.items ≡ map lowered_def (map def_tree defs.now)) }
{
    let mut all = Vec::new(alloc);
    for def in defs {
        all.push(lower_def(alloc, def)?)?;
    }
    Ok(all)
}

fn lower_def(alloc: Global, def: &Def) -> Result<Def, NoMemory>
    ensures { IfOk result (λ new. def_tree new ≡ lowered_def (def_tree def.now)) }
{
    Ok(Def {
        name: def.name.try_copy(alloc)?,
        params: copy_params(alloc, &def.params)?,
        results: Vec::from_slice(alloc, &def.results)?,
        body: lower_expr(alloc, &def.body)?,
    })
}

#[cycle(lower)]
fn lower_expr(alloc: Global, expr: &Expr) -> Result<Expr, NoMemory>
    ensures { IfOk result (λ new. expr_tree new ≡ lowered (expr_tree expr.now)) }
{
    match expr {
        Expr::Lit(k) => Ok(Expr::Lit(*k)),
        Expr::Truth(t) => Ok(Expr::Truth(*t)),
        Expr::Var(x) => Ok(Expr::Var(*x)),
        Expr::SetOf(parts)
        | Expr::Tuple(parts)
        | Expr::Min(parts)
        | Expr::Max(parts)
        | Expr::Call { args: parts, .. } => {
            let parts = lower_exprs(alloc, parts)?;
            Ok(over_list(expr, parts))
        }
        Expr::Chain { orders, parts } => {
            let parts = lower_exprs(alloc, parts)?;
            chain_over(alloc, orders, parts)
        }
        Expr::Neg(a)
        | Expr::Not(a)
        | Expr::Abs(a)
        | Expr::Card(a)
        | Expr::Divides { of: a, .. }
        | Expr::Div { of: a, .. }
        | Expr::Mod { of: a, .. } => {
            let part = lower_boxed(alloc, a)?;
            Ok(over_one(expr, part))
        }
        Expr::Binary {
            left: a,
            right: b,
            ..
        }
        | Expr::Let {
            value: a,
            body: b,
            ..
        } => {
            let first = lower_boxed(alloc, a)?;
            let second = lower_boxed(alloc, b)?;
            Ok(over_two(expr, first, second))
        }
        Expr::If { test, yes, no } => {
            let test = lower_boxed(alloc, test)?;
            let yes = lower_boxed(alloc, yes)?;
            let no = lower_boxed(alloc, no)?;
            Ok(Expr::If { test, yes, no })
        }
        Expr::Choose { .. } | Expr::ChooseWhere { .. } => expr.try_copy(alloc),
        Expr::Match {
            number,
            scope,
            of,
            arms,
        } => {
            let of = lower_boxed(alloc, of)?;
            let bodies = lower_bodies(alloc, arms)?;
            match_form(alloc, *number, scope, of, arms, bodies)
        }
    }
}

#[cycle(lower)]
fn lower_boxed(alloc: Global, expr: &Expr) -> Result<Box<Expr>, NoMemory>
    ensures { IfOk result (λ new. expr_tree new.value ≡ lowered (expr_tree expr.now)) }
{
    Ok(Box::new(alloc, lower_expr(alloc, expr)?)?)
}

#[cycle(lower)]
fn lower_exprs(alloc: Global, exprs: &[Expr]) -> Result<Vec<Expr>, NoMemory>
    ensures { IfOk result (λ new. expr_trees new.items ≡ all_lowered (expr_trees exprs.now)) }
{
    let mut all = Vec::new(alloc);
    for expr in exprs {
        all.push(lower_expr(alloc, expr)?)?;
    }
    Ok(all)
}

// The lowered bodies of arms.
#[cycle(lower)]
fn lower_bodies(alloc: Global, arms: &[MatchArm]) -> Result<Vec<Expr>, NoMemory>
    ensures { IfOk result (λ new. map expr_tree new.items ≡ bodies_lowered (match_arm_trees arms.now)) }
{
    let mut all = Vec::new(alloc);
    for arm in arms {
        all.push(lower_body(alloc, arm)?)?;
    }
    Ok(all)
}

#[cycle(lower)]
fn lower_body(alloc: Global, arm: &MatchArm) -> Result<Expr, NoMemory>
    ensures { IfOk result (λ new. expr_tree new ≡ lowered (body_of (match_arm_tree arm.now))) }
{
    lower_expr(alloc, &arm.body)
}

// A chain of these parts, with equal orders.
fn chain_over(alloc: Global, orders: &[Order], parts: Vec<Expr>) -> Result<Expr, NoMemory>
    ensures { IfOk result (λ new. expr_tree new ≡ expr_chain orders.now (expr_trees parts.items)) }
{
    let orders = Vec::from_slice(alloc, orders)?;
    Ok(Expr::Chain { orders, parts })
}

// The same form over these parts.
fn over_list(expr: &Expr, parts: Vec<Expr>) -> Expr
    ensures { expr_tree result ≡ over_list (expr_tree expr.now) (expr_trees parts.items) }
{
    match expr {
        Expr::SetOf(_) => Expr::SetOf(parts),
        Expr::Min(_) => Expr::Min(parts),
        Expr::Max(_) => Expr::Max(parts),
        Expr::Call { def, .. } => Expr::Call {
            def: *def,
            args: parts,
        },
        _ => Expr::Tuple(parts),
    }
}

// The same form over this part.
fn over_one(expr: &Expr, part: Box<Expr>) -> Expr
    ensures { expr_tree result ≡ over_one (expr_tree expr.now) (expr_tree part.value) }
{
    match expr {
        Expr::Neg(_) => Expr::Neg(part),
        Expr::Not(_) => Expr::Not(part),
        Expr::Abs(_) => Expr::Abs(part),
        Expr::Divides { k, .. } => Expr::Divides { k: *k, of: part },
        Expr::Div { k, .. } => Expr::Div { of: part, k: *k },
        Expr::Mod { k, .. } => Expr::Mod { of: part, k: *k },
        _ => Expr::Card(part),
    }
}

// The same form over these two parts.
fn over_two(expr: &Expr, first: Box<Expr>, second: Box<Expr>) -> Expr
    ensures { expr_tree result ≡ over_two (expr_tree expr.now) (expr_tree first.value) (expr_tree second.value) }
{
    match expr {
        Expr::Binary { op, .. } => Expr::Binary {
            op: *op,
            left: first,
            right: second,
        },
        Expr::Let { count, .. } => Expr::Let {
            count: *count,
            value: first,
            body: second,
        },
        _ => Box::into_inner(first),
    }
}
