//! Copies of source expressions with levels.
ghost use Rattle.std.specs.Prelude.{◌≡◌, IfOk, map};
ghost use Rattle.cf_tree.specs.ExprTree.{expr_chain, expr_choose, expr_choose_where, expr_match};
ghost use Rattle.cf_tree.specs.ExprView.{expr_tree, expr_trees, match_arm_tree, match_arm_trees, given_expr, aim_expr};
ghost use Rattle.cf_tree.specs.RelView.{rel_tree};
ghost use Rattle.cf_tree.specs.SameParts.{IsExprOverList, IsExprOverOne, IsExprOverTwo};

use crate::base::{Base, Order};
use crate::copy::words::copy_params;
use crate::expr::{Aim, Expr, Given, MatchArm};
use crate::memory::NoMemory;
use crate::raw::Param;
use crate::rel::Rel;
use crate::{expr_over_list, expr_over_one, expr_over_two};
use std::alloc::Global;

impl Expr {
    /// An equal tree.
    #[cycle(copy_expr)]
    pub fn try_copy(&self, alloc: Global) -> Result<Expr, NoMemory>
        ensures { IfOk result (λ new. expr_tree new ≡ expr_tree self.now) }
    {
        match self {
            Expr::Lit(x) => Ok(Expr::Lit(*x)),
            Expr::Truth(x) => Ok(Expr::Truth(*x)),
            Expr::Var(x) => Ok(Expr::Var(*x)),
            expr_over_list!(parts) => {
                let parts = copy_exprs(alloc, parts)?;
                Ok(self.over_list(parts))
            }
            expr_over_one!(a) => {
                let part = a.boxed(alloc)?;
                Ok(self.over_one(part))
            }
            expr_over_two!(a, b) => {
                let first = a.boxed(alloc)?;
                let second = b.boxed(alloc)?;
                Ok(self.over_two(first, second))
            }
            Expr::Chain { orders, parts } => {
                let parts = copy_exprs(alloc, parts)?;
                chain_over(alloc, orders, parts)
            }
            Expr::If { test, yes, no } => {
                let test = test.boxed(alloc)?;
                let yes = yes.boxed(alloc)?;
                let no = no.boxed(alloc)?;
                Ok(Expr::If { test, yes, no })
            }
            Expr::Choose {
                number,
                scope,
                outputs,
                rel,
            } => copied_choose(alloc, *number, scope, outputs, rel),
            Expr::ChooseWhere {
                number,
                scope,
                outputs,
                hidden,
                given,
                rel,
                aim,
            } => {
                let given = given.try_copy(alloc)?;
                let rel = rel.boxed(alloc)?;
                let aim = aim.try_copy(alloc)?;
                choose_over(alloc, *number, scope, outputs, hidden, given, rel, aim)
            }
            Expr::Match {
                number,
                scope,
                of,
                arms,
            } => {
                let of = of.boxed(alloc)?;
                let arms = copy_arms(alloc, arms)?;
                match_over(alloc, *number, scope, of, arms)
            }
        }
    }

    #[cycle(copy_expr)]
    fn boxed(&self, alloc: Global) -> Result<Box<Expr>, NoMemory>
        ensures { IfOk result (λ new. expr_tree new.value ≡ expr_tree self.now) }
    {
        Ok(Box::new(alloc, self.try_copy(alloc)?)?)
    }

    // The same form over a list of parts equal to its own.
    fn over_list(&self, parts: Vec<Expr>) -> Expr
        requires { IsExprOverList (expr_tree self.now) (expr_trees parts.items) }
        ensures { expr_tree result ≡ expr_tree self.now }
    {
        match self {
            Expr::SetOf(_) => Expr::SetOf(parts),
            Expr::Tuple(_) => Expr::Tuple(parts),
            Expr::Min(_) => Expr::Min(parts),
            Expr::Max(_) => Expr::Max(parts),
            Expr::Call { def, .. } => Expr::Call {
                def: *def,
                args: parts,
            },
            _ => unreachable!(),
        }
    }

    // The same form over a part equal to its own.
    fn over_one(&self, a: Box<Expr>) -> Expr
        requires { IsExprOverOne (expr_tree self.now) (expr_tree a.value) }
        ensures { expr_tree result ≡ expr_tree self.now }
    {
        match self {
            Expr::Neg(_) => Expr::Neg(a),
            Expr::Not(_) => Expr::Not(a),
            Expr::Abs(_) => Expr::Abs(a),
            Expr::Card(_) => Expr::Card(a),
            Expr::Divides { k, .. } => Expr::Divides { k: *k, of: a },
            Expr::Div { k, .. } => Expr::Div { of: a, k: *k },
            Expr::Mod { k, .. } => Expr::Mod { of: a, k: *k },
            _ => unreachable!(),
        }
    }

    // The same form over two parts equal to its own.
    fn over_two(&self, a: Box<Expr>, b: Box<Expr>) -> Expr
        requires { IsExprOverTwo (expr_tree self.now) (expr_tree a.value) (expr_tree b.value) }
        ensures { expr_tree result ≡ expr_tree self.now }
    {
        match self {
            Expr::Binary { op, .. } => Expr::Binary {
                op: *op,
                left: a,
                right: b,
            },
            Expr::Let { count, .. } => Expr::Let {
                count: *count,
                value: a,
                body: b,
            },
            _ => unreachable!(),
        }
    }
}

// A chain of these parts, with equal orders.
fn chain_over(alloc: Global, orders: &[Order], parts: Vec<Expr>) -> Result<Expr, NoMemory>
    ensures { IfOk result (λ new. expr_tree new ≡ expr_chain orders.now (expr_trees parts.items)) }
{
    let orders = Vec::from_slice(alloc, orders)?;
    Ok(Expr::Chain { orders, parts })
}

// A `choose` over these parts, in an equal scope and with equal outputs.
fn choose_over(
    alloc: Global,
    number: u32,
    scope: &[Param],
    outputs: &[Base],
    hidden: &[Base],
    given: Given,
    rel: Box<Expr>,
    aim: Aim,
) -> Result<Expr, NoMemory>
    ensures { IfOk result (λ new. expr_tree new ≡
        expr_choose_where number scope.now outputs.now hidden.now (given_expr given) (expr_tree rel.value) (aim_expr aim)) }
{
    let scope = copy_params(alloc, scope)?;
    let outputs = Vec::from_slice(alloc, outputs)?;
    let hidden = Vec::from_slice(alloc, hidden)?;
    Ok(Expr::ChooseWhere {
        number,
        scope,
        outputs,
        hidden,
        given,
        rel,
        aim,
    })
}

// A `choose` with equal parts.
fn copied_choose(
    alloc: Global,
    number: u32,
    scope: &[Param],
    outputs: &[Base],
    rel: &Rel,
) -> Result<Expr, NoMemory>
    ensures { IfOk result (λ new. expr_tree new ≡ expr_choose number scope.now outputs.now (rel_tree rel.now)) }
{
    let scope = copy_params(alloc, scope)?;
    let outputs = Vec::from_slice(alloc, outputs)?;
    let rel = rel.try_copy(alloc)?;
    Ok(Expr::Choose {
        number,
        scope,
        outputs,
        rel,
    })
}

// A `match` over these parts, in an equal scope.
fn match_over(
    alloc: Global,
    number: u32,
    scope: &[Param],
    of: Box<Expr>,
    arms: Vec<MatchArm>,
) -> Result<Expr, NoMemory>
    ensures { IfOk result (λ new. expr_tree new ≡ expr_match number scope.now (expr_tree of.value) (match_arm_trees arms.items)) }
{
    let scope = copy_params(alloc, scope)?;
    Ok(Expr::Match {
        number,
        scope,
        of,
        arms,
    })
}

impl Given {
    #[cycle(copy_expr)]
    fn try_copy(&self, alloc: Global) -> Result<Given, NoMemory>
        ensures { IfOk result (λ new. given_expr new ≡ given_expr self.now) }
    {
        match self {
            Given::Always => Ok(Given::Always),
            Given::Where(a) => Ok(Given::Where(a.boxed(alloc)?)),
        }
    }
}

impl Aim {
    #[cycle(copy_expr)]
    fn try_copy(&self, alloc: Global) -> Result<Aim, NoMemory>
        ensures { IfOk result (λ new. aim_expr new ≡ aim_expr self.now) }
    {
        match self {
            Aim::Any => Ok(Aim::Any),
            Aim::Least(a) => Ok(Aim::Least(a.boxed(alloc)?)),
            Aim::Greatest(a) => Ok(Aim::Greatest(a.boxed(alloc)?)),
        }
    }
}

impl MatchArm {
    /// An equal tree.
    #[cycle(copy_expr)]
    pub fn try_copy(&self, alloc: Global) -> Result<MatchArm, NoMemory>
        ensures { IfOk result (λ new. match_arm_tree new ≡ match_arm_tree self.now) }
    {
        Ok(MatchArm {
            number: self.number,
            factors: Vec::from_slice(alloc, &self.factors)?,
            constant: self.constant,
            body: self.body.try_copy(alloc)?,
        })
    }
}

#[cycle(copy_expr)]
fn copy_exprs(alloc: Global, exprs: &[Expr]) -> Result<Vec<Expr>, NoMemory>
    ensures { IfOk result (λ new. map expr_tree new.items ≡ map expr_tree exprs.now) }
{
    let mut all = Vec::new(alloc);
    for expr in exprs {
        all.push(expr.try_copy(alloc)?)?;
    }
    Ok(all)
}

#[cycle(copy_expr)]
fn copy_arms(alloc: Global, arms: &[MatchArm]) -> Result<Vec<MatchArm>, NoMemory>
    ensures { IfOk result (λ new. map match_arm_tree new.items ≡ map match_arm_tree arms.now) }
{
    let mut all = Vec::new(alloc);
    for arm in arms {
        all.push(arm.try_copy(alloc)?)?;
    }
    Ok(all)
}
