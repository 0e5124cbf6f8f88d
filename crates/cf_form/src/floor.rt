//! Floors: what a relation that is written out weighs at least, told without expanding it.
ghost use Rattle.std.specs.Prelude.{◌≡◌, ◌≤◌, ◌+◌, ◌++◌, ◌∷◌, [], IfOk, map};
ghost use Rattle.cf_tree.specs.DefView.{def_tree};
ghost use Rattle.cf_tree.specs.ExprTree.{expr_var};
ghost use Rattle.cf_tree.specs.ExprView.{expr_tree};
ghost use Rattle.cf_form.specs.declared.floor.Floor.TheVariants as floors;
ghost use Rattle.cf_form.specs.Floor.{HasFloor, HaveFloor, base_floor as floor_of_base};
ghost use Rattle.cf_form.specs.Unfolding.{calls_of};

use cf_tree::{Base, BinOp, Def, Expr, NoMemory};
use std::alloc::Global;

/// What is known of a part of an expression's value without expanding it.
#[derive(Clone, Copy)]
pub enum Floor {
    /// A number form with one alternative, of at least so many nodes.
    Number(u64),
    /// A relation that is written out with at least so many nodes, and so is its negation.
    Truth(u64),
    /// A part of which nothing is known.
    Other,
}

/// The floor of an expression behind these functions, where the variables have these floors; want
/// of memory also where it is not known.
#[tactic(auto, using(crate::proofs::FloorForms::lit_has, crate::proofs::FloorForms::truth_has, crate::proofs::FloorForms::neg_has, crate::proofs::FloorForms::abs_has, crate::proofs::FloorForms::div_has, crate::proofs::FloorForms::mod_has, crate::proofs::FloorForms::divides_has, crate::proofs::FloorForms::not_has, crate::proofs::FloorForms::binary_has, crate::proofs::FloorForms::let_has, crate::proofs::FloorForms::if_has))]
pub(crate) fn floor_of(
    alloc: Global,
    before: &[Def],
    env: &[Floor],
    expr: &Expr,
) -> Result<Floor, NoMemory>
    ensures { IfOk result (λ f. HasFloor (calls_of (map def_tree before.now)) env.now (expr_tree expr.now) f) }
{
    match expr {
        Expr::Lit(_) => Ok(Floor::Number(1)),
        Expr::Truth(_) => Ok(Floor::Truth(1)),
        Expr::Var(x) => variable(before, env, *x),
        Expr::Neg(a) => {
            let weight = number_in(floor_of(alloc, before, env, a)?)?;
            Ok(Floor::Number(weight))
        }
        Expr::Abs(a) => {
            let weight = number_in(floor_of(alloc, before, env, a)?)?;
            Ok(Floor::Number(weight))
        }
        Expr::Div { of, .. } => {
            let weight = number_in(floor_of(alloc, before, env, of)?)?;
            Ok(Floor::Number(weight))
        }
        Expr::Mod { of, .. } => {
            let weight = number_in(floor_of(alloc, before, env, of)?)?;
            Ok(Floor::Number(weight))
        }
        Expr::Divides { of, .. } => {
            let weight = number_in(floor_of(alloc, before, env, of)?)?;
            Ok(Floor::Truth(weight))
        }
        Expr::Not(a) => {
            let weight = truth_in(floor_of(alloc, before, env, a)?)?;
            Ok(Floor::Truth(weight))
        }
        Expr::Binary { op, left, right } => {
            let left = floor_of(alloc, before, env, left)?;
            let right = floor_of(alloc, before, env, right)?;
            let both = binary(*op, left, right)?;
            Ok(both)
        }
        Expr::If { test, yes, no } => {
            let test = truth_in(floor_of(alloc, before, env, test)?)?;
            let yes = truth_in(floor_of(alloc, before, env, yes)?)?;
            let no = truth_in(floor_of(alloc, before, env, no)?)?;
            Ok(Floor::Truth(sum_of_four(test, yes, test, no)))
        }
        Expr::Let { value, body, .. } => {
            let value = floor_of(alloc, before, env, value)?;
            let inner = behind(alloc, env, value)?;
            let body = floor_of(alloc, before, &inner, body)?;
            Ok(body)
        }
        _ => Err(NoMemory),
    }
}

// The floor of the variable of level `level`.
#[tactic(auto, using(crate::proofs::FloorForms::var_has))]
fn variable(before: &[Def], env: &[Floor], level: u32) -> Result<Floor, NoMemory>
    ensures { IfOk result (λ f. HasFloor (calls_of (map def_tree before.now)) env.now (expr_var level) f) }
{
    match env.get(level as usize) {
        Some(floor) => Ok(*floor),
        None => Err(NoMemory),
    }
}

// The weight of a number.
fn number_in(floor: Floor) -> Result<u64, NoMemory>
    ensures { IfOk result (λ w. floor ≡ floors.Number w) }
{
    match floor {
        Floor::Number(weight) => Ok(weight),
        Floor::Truth(_) | Floor::Other => Err(NoMemory),
    }
}

/// The weight of a relation.
pub(crate) fn truth_in(floor: Floor) -> Result<u64, NoMemory>
    ensures { IfOk result (λ w. floor ≡ floors.Truth w) }
{
    match floor {
        Floor::Truth(weight) => Ok(weight),
        Floor::Number(_) | Floor::Other => Err(NoMemory),
    }
}

// The floor of an operation over parts with these.
#[tactic(auto, using(crate::proofs::FloorSteps::have_numbers, crate::proofs::FloorSteps::have_truths))]
fn binary(op: BinOp, left: Floor, right: Floor) -> Result<Floor, NoMemory>
    ensures { IfOk result (λ f. HaveFloor op left right f) }
{
    match left {
        Floor::Number(left) => {
            let right = number_in(right)?;
            let floor = over_numbers(op, left, right)?;
            Ok(floor)
        }
        Floor::Truth(left) => {
            let right = truth_in(right)?;
            let floor = over_truths(op, left, right)?;
            Ok(floor)
        }
        Floor::Other => Err(NoMemory),
    }
}

#[tactic(auto, using(crate::proofs::FloorForms::added, crate::proofs::FloorForms::taken, crate::proofs::FloorForms::multiplied, crate::proofs::FloorForms::compared))]
fn over_numbers(op: BinOp, left: u64, right: u64) -> Result<Floor, NoMemory>
    ensures { IfOk result (λ f. HaveFloor op (floors.Number left) (floors.Number right) f) }
{
    let weight = sum(left, right);
    match op {
        BinOp::Add => Ok(Floor::Number(weight)),
        BinOp::Sub => Ok(Floor::Number(weight)),
        BinOp::Mul => Ok(Floor::Number(weight)),
        BinOp::Compare(_) => Ok(Floor::Truth(weight)),
        _ => Err(NoMemory),
    }
}

// Each side of `==` and `!=` of relations is written out twice.
#[tactic(auto, using(crate::proofs::FloorForms::both, crate::proofs::FloorForms::either, crate::proofs::FloorForms::implied, crate::proofs::FloorForms::matched))]
fn over_truths(op: BinOp, left: u64, right: u64) -> Result<Floor, NoMemory>
    ensures { IfOk result (λ f. HaveFloor op (floors.Truth left) (floors.Truth right) f) }
{
    match op {
        BinOp::And => Ok(Floor::Truth(sum(left, right))),
        BinOp::Or => Ok(Floor::Truth(sum(left, right))),
        BinOp::Implies => Ok(Floor::Truth(sum(left, right))),
        BinOp::Compare(_) => Ok(Floor::Truth(sum_of_four(left, right, left, right))),
        _ => Err(NoMemory),
    }
}

fn sum(v: u64, w: u64) -> u64
    ensures { result ≤ v + w }
{
    v.saturating_add(w)
}

fn sum_of_four(u: u64, v: u64, w: u64, x: u64) -> u64
    ensures { result ≤ u + v + w + x }
{
    u.saturating_add(v).saturating_add(w).saturating_add(x)
}

// These floors, and one more behind them.
fn behind(alloc: Global, env: &[Floor], floor: Floor) -> Result<Vec<Floor>, NoMemory>
    ensures { IfOk result (λ all. all.items ≡ env.now ++ floor ∷ []) }
{
    let mut all = Vec::from_slice(alloc, env)?;
    all.push(floor)?;
    Ok(all)
}

/// The floors of variables of these bases.
pub(crate) fn base_floors(alloc: Global, bases: &[Base]) -> Result<Vec<Floor>, NoMemory>
    ensures { IfOk result (λ all. all.items ≡ map floor_of_base bases.now) }
{
    let mut all = Vec::new(alloc);
    for base in bases {
        all.push(base_floor(*base))?;
    }
    Ok(all)
}

fn base_floor(base: Base) -> Floor
    ensures { result ≡ floor_of_base base }
{
    match base {
        Base::Int => Floor::Number(1),
        Base::Bool => Floor::Truth(1),
        Base::Set => Floor::Other,
    }
}
