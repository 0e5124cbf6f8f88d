//! Expressions of edition 3 with the forms of language 2.
ghost use Rattle.std.specs.Prelude.{◌≡◌, IfOk, map};
ghost use Rattle.cf_tree.specs.declared.raw.BinOp.TheVariants.{Or};
ghost use Rattle.cf_tree.specs.DefView.{def_tree};
ghost use Rattle.cf_tree.specs.ExprTree.{expr_binary, expr_chain, expr_match, expr_not};
ghost use Rattle.cf_tree.specs.ExprView.{expr_tree, expr_trees, match_arm_tree, match_arm_trees};
ghost use Rattle.cf_form.specs.Formed.{formed, all_formed, arms_formed, binary_formed, formed_def, formed_defs};
ghost use Rattle.cf_form.specs.FormShapes.{over_list, over_one, arm_over, arm_formed, best_formed};
ghost use Rattle.cf_form.specs.Unfolding.{calls_of};

use crate::chains::{best, chain};
use crate::choose::choose;
use crate::wide::Room;
use cf_tree::{
    BinOp, Def, Expr, MatchArm, NoMemory, Order, Param, add_u32, copy_params, expr_over_one,
    to_u32, without,
};
use std::alloc::Global;

/// The forms of functions, each behind those before it.
pub(crate) fn form_defs(alloc: Global, room: &mut Room, defs: &[Def]) -> Result<Vec<Def>, NoMemory>
    ensures { IfOk result (λ new. map def_tree new.items ≡ formed_defs (map def_tree defs.now)) }
{
    let mut all = Vec::new(alloc);
    for index in 0..defs.len() {
        all.push(form_def(alloc, room, &defs[..index], &defs[index])?)?;
    }
    Ok(all)
}

// The form of a function behind these.
fn form_def(alloc: Global, room: &mut Room, before: &[Def], def: &Def) -> Result<Def, NoMemory>
    ensures { IfOk result (λ new. def_tree new ≡ formed_def (map def_tree before.now) (def_tree def.now)) }
{
    let around = Around { alloc, before };
    let s = to_u32(def.params.len())?;
    Ok(Def {
        name: def.name.try_copy(alloc)?,
        params: copy_params(alloc, &def.params)?,
        results: Vec::from_slice(alloc, &def.results)?,
        body: form_expr(&around, room, s, &def.body)?,
    })
}

// What the expressions of a function stand among: the functions before it, as in the source.
#[derive(Drop)]
struct Around<'a> {
    alloc: Global,
    before: &'a [Def],
}

// The form of an expression behind s variables.
#[cycle(form)]
fn form_expr(around: &Around, room: &mut Room, s: u32, expr: &Expr) -> Result<Expr, NoMemory>
    ensures { IfOk result (λ e. expr_tree e ≡ formed (calls_of (map def_tree around.now.before.now)) s (expr_tree expr.now)) }
{
    match expr {
        Expr::Lit(k) => Ok(Expr::Lit(*k)),
        Expr::Truth(t) => Ok(Expr::Truth(*t)),
        Expr::Var(x) => Ok(Expr::Var(*x)),
        Expr::SetOf(parts) | Expr::Tuple(parts) | Expr::Call { args: parts, .. } => {
            let parts = form_all(around, room, s, parts)?;
            Ok(over_list(expr, parts))
        }
        expr_over_one!(a) => {
            let a = form_boxed(around, room, s, a)?;
            Ok(over_one(expr, a))
        }
        Expr::Binary { op, left, right } => {
            let left = form_boxed(around, room, s, left)?;
            let right = form_boxed(around, room, s, right)?;
            binary(around.alloc, *op, left, right)
        }
        Expr::If { test, yes, no } => {
            let test = form_boxed(around, room, s, test)?;
            let yes = form_boxed(around, room, s, yes)?;
            let no = form_boxed(around, room, s, no)?;
            Ok(Expr::If { test, yes, no })
        }
        Expr::Let { count, value, body } => {
            let value = form_boxed(around, room, s, value)?;
            let inner = add_u32(s, *count)?;
            let body = form_boxed(around, room, inner, body)?;
            let count = *count;
            Ok(Expr::Let { count, value, body })
        }
        Expr::Chain { orders, parts } => form_chain(around, room, s, orders, parts),
        Expr::Min(parts) => form_best(around, room, s, Order::Le, parts),
        Expr::Max(parts) => form_best(around, room, s, Order::Ge, parts),
        Expr::Choose { .. } => expr.try_copy(around.alloc),
        Expr::ChooseWhere { .. } => choose(around.alloc, room, around.before, expr),
        Expr::Match {
            number,
            scope,
            of,
            arms,
        } => {
            let of = form_boxed(around, room, s, of)?;
            let inner = add_u32(s, 1)?;
            let arms = form_arms(around, room, inner, arms)?;
            match_over(around.alloc, *number, scope, of, arms)
        }
    }
}

#[cycle(form)]
fn form_boxed(around: &Around, room: &mut Room, s: u32, expr: &Expr) -> Result<Box<Expr>, NoMemory>
    ensures { IfOk result (λ e. expr_tree e.value ≡ formed (calls_of (map def_tree around.now.before.now)) s (expr_tree expr.now)) }
{
    Ok(Box::new(around.alloc, form_expr(around, room, s, expr)?)?)
}

// A chain of these parts.
#[cycle(form)]
fn form_chain(
    around: &Around,
    room: &mut Room,
    s: u32,
    orders: &[Order],
    exprs: &[Expr],
) -> Result<Expr, NoMemory>
    ensures { IfOk result (λ e. expr_tree e ≡ formed (calls_of (map def_tree around.now.before.now)) s (expr_chain orders.now (expr_trees exprs.now))) }
{
    let parts = form_all(around, room, s, exprs)?;
    chain(around.alloc, orders, s, parts)
}

// The least or greatest of these parts: the picked one stands in this order to the others.
#[cycle(form)]
fn form_best(
    around: &Around,
    room: &mut Room,
    s: u32,
    order: Order,
    exprs: &[Expr],
) -> Result<Expr, NoMemory>
    ensures { IfOk result (λ e. expr_tree e ≡ best_formed (calls_of (map def_tree around.now.before.now)) order s (expr_trees exprs.now)) }
{
    let parts = form_all(around, room, s, exprs)?;
    best(around.alloc, order, s, parts)
}

#[cycle(form)]
fn form_all(around: &Around, room: &mut Room, s: u32, exprs: &[Expr]) -> Result<Vec<Expr>, NoMemory>
    ensures { IfOk result (λ es. expr_trees es.items ≡ all_formed (calls_of (map def_tree around.now.before.now)) s (expr_trees exprs.now)) }
{
    let mut all = Vec::new(around.alloc);
    for expr in exprs {
        all.push(form_expr(around, room, s, expr)?)?;
    }
    Ok(all)
}

// The bodies of arms, behind the value that is matched and the variables of the pattern.
#[cycle(form)]
fn form_arms(
    around: &Around,
    room: &mut Room,
    s: u32,
    arms: &[MatchArm],
) -> Result<Vec<MatchArm>, NoMemory>
    ensures { IfOk result (λ new. match_arm_trees new.items ≡ arms_formed (calls_of (map def_tree around.now.before.now)) s (match_arm_trees arms.now)) }
{
    let mut all = Vec::new(around.alloc);
    for arm in arms {
        all.push(form_arm(around, room, s, arm)?)?;
    }
    Ok(all)
}

#[cycle(form)]
fn form_arm(around: &Around, room: &mut Room, s: u32, arm: &MatchArm) -> Result<MatchArm, NoMemory>
    ensures { IfOk result (λ new. match_arm_tree new ≡ arm_formed (calls_of (map def_tree around.now.before.now)) s (match_arm_tree arm.now)) }
{
    let inner = add_u32(s, to_u32(arm.factors.len())?)?;
    let body = form_expr(around, room, inner, &arm.body)?;
    arm_over(around.alloc, arm, body)
}

// The same arm over this body.
fn arm_over(alloc: Global, arm: &MatchArm, body: Expr) -> Result<MatchArm, NoMemory>
    ensures { IfOk result (λ new. match_arm_tree new ≡ arm_over (match_arm_tree arm.now) (expr_tree body)) }
{
    match Vec::from_slice(alloc, &arm.factors) {
        Ok(factors) => Ok(MatchArm {
            number: arm.number,
            factors,
            constant: arm.constant,
            body,
        }),
        Err(_) => Err(without(body, NoMemory)),
    }
}

// The same form over these parts.
fn over_list(expr: &Expr, parts: Vec<Expr>) -> Expr
    ensures { expr_tree result ≡ over_list (expr_tree expr.now) (expr_trees parts.items) }
{
    match expr {
        Expr::SetOf(_) => Expr::SetOf(parts),
        Expr::Call { def, .. } => Expr::Call {
            def: *def,
            args: parts,
        },
        _ => Expr::Tuple(parts),
    }
}

// The same form over this part.
fn over_one(expr: &Expr, part: Box<Expr>) -> Expr
    ensures { expr_tree result ≡ over_one (expr_tree expr.now) (expr_tree part.value) }
{
    match expr {
        Expr::Neg(_) => Expr::Neg(part),
        Expr::Not(_) => Expr::Not(part),
        Expr::Abs(_) => Expr::Abs(part),
        Expr::Divides { k, .. } => Expr::Divides { k: *k, of: part },
        Expr::Div { k, .. } => Expr::Div { of: part, k: *k },
        Expr::Mod { k, .. } => Expr::Mod { of: part, k: *k },
        _ => Expr::Card(part),
    }
}

// The operation over these parts; `p ==> q` as `!p || q`.
fn binary(alloc: Global, op: BinOp, left: Box<Expr>, right: Box<Expr>) -> Result<Expr, NoMemory>
    ensures { IfOk result (λ e. expr_tree e ≡ binary_formed op (expr_tree left.value) (expr_tree right.value)) }
{
    match op {
        BinOp::Implies => implies(alloc, left, right),
        BinOp::Add
        | BinOp::Sub
        | BinOp::Mul
        | BinOp::And
        | BinOp::Or
        | BinOp::Union
        | BinOp::Inter
        | BinOp::Diff
        | BinOp::Subset
        | BinOp::Compare(_) => Ok(Expr::Binary { op, left, right }),
    }
}

fn implies(alloc: Global, left: Box<Expr>, right: Box<Expr>) -> Result<Expr, NoMemory>
    ensures { IfOk result (λ e. expr_tree e ≡ expr_binary Or (expr_not (expr_tree left.value)) (expr_tree right.value)) }
{
    match Box::new(alloc, Expr::Not(left)) {
        Ok(left) => Ok(Expr::Binary {
            op: BinOp::Or,
            left,
            right,
        }),
        Err(_) => Err(without(right, NoMemory)),
    }
}

// A `match` over these parts, in an equal scope.
fn match_over(
    alloc: Global,
    number: u32,
    scope: &[Param],
    of: Box<Expr>,
    arms: Vec<MatchArm>,
) -> Result<Expr, NoMemory>
    ensures { IfOk result (λ e. expr_tree e ≡ expr_match number scope.now (expr_tree of.value) (match_arm_trees arms.items)) }
{
    let scope = copy_params(alloc, scope)?;
    Ok(Expr::Match {
        number,
        scope,
        of,
        arms,
    })
}
