//! Sizes and depths of source expressions with levels.
ghost use Rattle.std.specs.Prelude.{◌≡◌};
ghost use Rattle.cf_tree.specs.RelSize.{capped};
ghost use Rattle.cf_tree.specs.ExprTree.{expr_size, exprs_size, match_arm_size, match_arms_size, given_expr_size, aim_expr_size, expr_depth, exprs_depth, match_arm_depth, match_arms_depth, given_expr_depth, aim_expr_depth};
ghost use Rattle.cf_tree.specs.ExprView.{expr_tree, match_arm_tree, given_expr, aim_expr, expr_trees, match_arm_trees};

use crate::expr::{Aim, Expr, Given, MatchArm};
use crate::{expr_leaf, expr_over_list, expr_over_one, expr_over_two};

impl Expr {
    /// How many nodes it has, but never more than the greatest number of 64 bits.
    #[cycle(size_expr)]
    pub fn size(&self) -> u64
        ensures { result ≡ capped (expr_size (expr_tree self.now)) }
    {
        match self {
            expr_leaf!() => 1,
            expr_over_list!(parts) | Expr::Chain { parts, .. } => exprs_size(parts).saturating_add(
                1,
            ),
            expr_over_one!(a) => a.size().saturating_add(1),
            expr_over_two!(a, b) => a.size().saturating_add(b.size()).saturating_add(1),
            Expr::If { test, yes, no } => test
                .size()
                .saturating_add(yes.size())
                .saturating_add(no.size())
                .saturating_add(1),
            Expr::Choose { rel, .. } => rel.size().saturating_add(1),
            Expr::ChooseWhere {
                given,
                rel,
                aim,
                ..
            } => given
                .size()
                .saturating_add(rel.size())
                .saturating_add(aim.size())
                .saturating_add(1),
            Expr::Match { of, arms, .. } => of
                .size()
                .saturating_add(arms_size(arms))
                .saturating_add(1),
        }
    }

    /// How deep it is: 1 for a leaf. Never more than the greatest number of 64 bits.
    #[cycle(depth_expr)]
    pub fn depth(&self) -> u64
        ensures { result ≡ capped (expr_depth (expr_tree self.now)) }
    {
        match self {
            expr_leaf!() => 1,
            expr_over_list!(parts) | Expr::Chain { parts, .. } => exprs_depth(parts).saturating_add(
                1,
            ),
            expr_over_one!(a) => a.depth().saturating_add(1),
            expr_over_two!(a, b) => a.depth().max(b.depth()).saturating_add(1),
            Expr::If { test, yes, no } => test
                .depth()
                .max(yes.depth())
                .max(no.depth())
                .saturating_add(1),
            Expr::Choose { rel, .. } => rel.depth().saturating_add(1),
            Expr::ChooseWhere {
                given,
                rel,
                aim,
                ..
            } => given
                .depth()
                .max(rel.depth())
                .max(aim.depth())
                .saturating_add(1),
            Expr::Match { of, arms, .. } => of.depth().max(arms_depth(arms)).saturating_add(1),
        }
    }
}

impl MatchArm {
    /// How many nodes it has, but never more than the greatest number of 64 bits.
    #[cycle(size_expr)]
    pub fn size(&self) -> u64
        ensures { result ≡ capped (match_arm_size (match_arm_tree self.now)) }
    {
        self.body.size().saturating_add(1)
    }

    /// How deep it is: 1 for a leaf. Never more than the greatest number of 64 bits.
    #[cycle(depth_expr)]
    pub fn depth(&self) -> u64
        ensures { result ≡ capped (match_arm_depth (match_arm_tree self.now)) }
    {
        self.body.depth().max(1)
    }
}

impl Given {
    #[cycle(size_expr)]
    fn size(&self) -> u64
        ensures { result ≡ capped (given_expr_size (given_expr self.now)) }
    {
        match self {
            Given::Always => 0,
            Given::Where(a) => a.size(),
        }
    }

    #[cycle(depth_expr)]
    fn depth(&self) -> u64
        ensures { result ≡ capped (given_expr_depth (given_expr self.now)) }
    {
        match self {
            Given::Always => 0,
            Given::Where(a) => a.depth(),
        }
    }
}

impl Aim {
    #[cycle(size_expr)]
    fn size(&self) -> u64
        ensures { result ≡ capped (aim_expr_size (aim_expr self.now)) }
    {
        match self {
            Aim::Any => 0,
            Aim::Least(a) | Aim::Greatest(a) => a.size(),
        }
    }

    #[cycle(depth_expr)]
    fn depth(&self) -> u64
        ensures { result ≡ capped (aim_expr_depth (aim_expr self.now)) }
    {
        match self {
            Aim::Any => 0,
            Aim::Least(a) | Aim::Greatest(a) => a.depth(),
        }
    }
}

#[cycle(size_expr)]
fn exprs_size(exprs: &[Expr]) -> u64
    ensures { result ≡ capped (exprs_size (expr_trees exprs.now)) }
{
    let mut total: u64 = 0;
    for expr in exprs {
        total = total.saturating_add(expr.size());
    }
    total
}

#[cycle(size_expr)]
fn arms_size(arms: &[MatchArm]) -> u64
    ensures { result ≡ capped (match_arms_size (match_arm_trees arms.now)) }
{
    let mut total: u64 = 0;
    for arm in arms {
        total = total.saturating_add(arm.size());
    }
    total
}

#[cycle(depth_expr)]
fn exprs_depth(exprs: &[Expr]) -> u64
    ensures { result ≡ capped (exprs_depth (expr_trees exprs.now)) }
{
    let mut deepest: u64 = 0;
    for expr in exprs {
        deepest = deepest.max(expr.depth());
    }
    deepest
}

#[cycle(depth_expr)]
fn arms_depth(arms: &[MatchArm]) -> u64
    ensures { result ≡ capped (match_arms_depth (match_arm_trees arms.now)) }
{
    let mut deepest: u64 = 0;
    for arm in arms {
        deepest = deepest.max(arm.depth());
    }
    deepest
}
