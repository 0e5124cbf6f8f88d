//! Runs expressions whose chooses are eliminated where they are entered.
#![tactic(auto, using(crate::proofs::Evaluation::stop_then))]

ghost use Rattle.std.specs.Prelude.{◌≡◌, ◌++◌, OnOk};
ghost use Rattle.cf_num.specs.Limit.{IsWithin};
ghost use Rattle.cf_tree.specs.ExprView.{expr_tree, expr_trees, match_arm_tree, match_arm_trees};
ghost use Rattle.cf_tree.specs.Params.{bases_of};
ghost use Rattle.cf_tree.specs.Values.{first_of, number_of};
ghost use Rattle.cf_late.specs.Answers.{LateAnswer, arm_taken, calls_in};
ghost use Rattle.cf_late.specs.LateRun.{late_in, late_all, late_arms, late_right};
ghost use Rattle.cf_late.specs.Runnable.{IsRunnable, IsRunnableArm, AreRunnable, AreRunnableArms};

use crate::enter::enter;
use crate::operate::{decided, joined, literal, over_one, set_of, truth};
use crate::pattern::{fits, variables};
use crate::stop::Stop;
use crate::values::Values;
use cf_program::Late;
use cf_tree::{BinOp, Expr, MatchArm, Param, without};
use std::alloc::Global;

// A function that runs: its number, which is how many functions stand before it. It may call these.
#[derive(Drop)]
pub(crate) struct Caller<'a> {
    pub(crate) alloc: Global,
    pub(crate) late: &'a Late,
    pub(crate) number: u32,
}

#[cycle(eval)]
pub(crate) fn eval(caller: &Caller, expr: &Expr, env: &mut Values) -> Result<Values, Stop>
    requires runnable { IsRunnable (expr_tree expr.now) }
    ensures { LateAnswer result (late_in (calls_in caller.now.number caller.now.late.now.defs.items) (expr_tree expr.now) env.old)
        × OnOk result (env.new ≡ env.old) }
{
    // for the proof: a `match` is one call where a `?` is three
    match expr {
        Expr::Lit(k) => literal(caller.alloc, *k),
        Expr::Truth(t) => truth(caller.alloc, *t),
        Expr::Var(x) => Ok(env.value_at(caller.alloc, *x)?),
        Expr::SetOf(parts) => match all(caller, parts, env) {
            Ok(values) => set_of(caller.alloc, values),
            Err(stop) => Err(stop),
        },
        Expr::Tuple(parts) => all(caller, parts, env),
        Expr::Neg(a)
        | Expr::Not(a)
        | Expr::Abs(a)
        | Expr::Card(a)
        | Expr::Divides { of: a, .. }
        | Expr::Div { of: a, .. }
        | Expr::Mod { of: a, .. } => match eval(caller, a, env) {
            Ok(part) => over_one(caller.alloc, expr, part),
            Err(stop) => Err(stop),
        },
        Expr::Binary { op, left, right } => match eval(caller, left, env) {
            Ok(first) => binary(caller, *op, first, right, env),
            Err(stop) => Err(stop),
        },
        Expr::If { test, yes, no } => {
            let holds = eval(caller, test, env)?.truth();
            if holds {
                eval(caller, yes, env)
            } else {
                eval(caller, no, env)
            }
        }
        Expr::Call { def, args } => match all(caller, args, env) {
            Ok(args) => call(caller, *def, args),
            Err(stop) => Err(stop),
        },
        Expr::Let { value, body, .. } => match eval(caller, value, env) {
            Ok(parts) => behind(caller, parts, body, env),
            Err(stop) => Err(stop),
        },
        Expr::Choose {
            number,
            scope,
            outputs,
            rel,
        } => enter(caller.alloc, *number, scope, outputs, rel, env),
        Expr::Match {
            number,
            scope,
            of,
            arms,
        } => match eval(caller, of, env) {
            Ok(value) => matched(caller, *number, scope, value, arms, env),
            Err(stop) => Err(stop),
        },
        Expr::Chain { .. } | Expr::Min(_) | Expr::Max(_) | Expr::ChooseWhere { .. } => {
            unreachable!()
        }
    }
}

// The values of all, from left to right.
#[cycle(eval)]
#[tactic(auto, using(crate::proofs::Evaluation::all_start))]
fn all(caller: &Caller, parts: &[Expr], env: &mut Values) -> Result<Values, Stop>
    requires runnable { AreRunnable (expr_trees parts.now) }
    ensures { LateAnswer result (late_all (calls_in caller.now.number caller.now.late.now.defs.items) (expr_trees parts.now) env.old)
        × OnOk result (env.new ≡ env.old) }
{
    let mut values = Values::none(caller.alloc);
    for i in 0..parts.len() {
        match eval(caller, &parts[i], env) {
            Ok(more) => values.append(more)?,
            Err(stop) => return Err(without(values, stop)),
        }
    }
    Ok(values)
}

// An operation whose left side has this value.
#[cycle(eval)]
#[tactic(auto, using(crate::proofs::Evaluation::right_decided, crate::proofs::Evaluation::right_goes_on, crate::proofs::Evaluation::right_stops))]
fn binary(
    caller: &Caller,
    op: BinOp,
    first: Values,
    right: &Expr,
    env: &mut Values,
) -> Result<Values, Stop>
    requires runnable { IsRunnable (expr_tree right.now) }
    ensures { LateAnswer result (late_right op (first_of first)
        (late_in (calls_in caller.now.number caller.now.late.now.defs.items) (expr_tree right.now) env.old))
        × OnOk result (env.new ≡ env.old) }
{
    match decided(op, &first) {
        Some(value) => truth(caller.alloc, value),
        None => match eval(caller, right, env) {
            Ok(second) => joined(caller.alloc, op, first, second),
            Err(stop) => Err(without(first, stop)),
        },
    }
}

// A call of function number f.
#[cycle(eval)]
#[tactic(auto, using(crate::proofs::Calls::call_past))]
fn call(caller: &Caller, f: u32, args: Values) -> Result<Values, Stop>
    ensures { LateAnswer result (calls_in caller.now.number caller.now.late.now.defs.items f args) }
{
    if f >= caller.number {
        return Ok(Values::none(caller.alloc));
    }
    match caller.late.defs().get(f as usize) {
        None => Ok(Values::none(caller.alloc)),
        Some(def) => {
            let callee = Caller {
                alloc: caller.alloc,
                late: caller.late,
                number: f,
            };
            let mut env = args;
            eval(&callee, &def.body, &mut env)
        }
    }
}

// An expression behind these values.
#[cycle(eval)]
#[tactic(auto, using(crate::proofs::Evaluation::stop_then, crate::proofs::ValuesLaws::taken_back))]
fn behind(caller: &Caller, values: Values, body: &Expr, env: &mut Values) -> Result<Values, Stop>
    requires runnable { IsRunnable (expr_tree body.now) }
    ensures { LateAnswer result (late_in (calls_in caller.now.number caller.now.late.now.defs.items) (expr_tree body.now) (env.old ++ values))
        × OnOk result (env.new ≡ env.old) }
{
    let size = env.len();
    env.append(values)?;
    let given = eval(caller, body, env)?;
    env.truncate(size);
    Ok(given)
}

// A match of this value.
#[cycle(eval)]
#[tactic(auto, using(crate::proofs::Evaluation::stop_then, crate::proofs::ValuesLaws::taken_back))]
fn matched(
    caller: &Caller,
    number: u32,
    scope: &[Param],
    value: Values,
    arms: &[MatchArm],
    env: &mut Values,
) -> Result<Values, Stop>
    requires runnable { AreRunnableArms (bases_of scope.now) (match_arm_trees arms.now) }
    ensures { LateAnswer result (late_arms (calls_in caller.now.number caller.now.late.now.defs.items) number (bases_of scope.now)
        (match_arm_trees arms.now) (number_of (first_of value)) (env.old ++ value))
        × OnOk result (env.new ≡ env.old) }
{
    let size = env.len();
    let z = value.number();
    env.append(value)?;
    let given = first_arm(caller, number, scope, z, arms, env)?;
    env.truncate(size);
    Ok(given)
}

// The first arm whose test holds of the number.
#[cycle(eval)]
#[tactic(auto, using(crate::proofs::Evaluation::arm_is_taken, crate::proofs::Evaluation::arm_is_left))]
fn first_arm(
    caller: &Caller,
    number: u32,
    scope: &[Param],
    z: i128,
    arms: &[MatchArm],
    env: &mut Values,
) -> Result<Values, Stop>
    requires runnable { AreRunnableArms (bases_of scope.now) (match_arm_trees arms.now) }
    requires fit { IsWithin z }
    ensures { LateAnswer result (late_arms (calls_in caller.now.number caller.now.late.now.defs.items) number (bases_of scope.now)
        (match_arm_trees arms.now) z env.old)
        × OnOk result (env.new ≡ env.old) }
{
    for i in 0..arms.len() {
        if fits(&arms[i], z) {
            return taken(caller, scope, &arms[i], env);
        }
    }
    Err(Stop::Unsolved(number))
}

// An arm whose test holds.
#[cycle(eval)]
fn taken(caller: &Caller, scope: &[Param], arm: &MatchArm, env: &mut Values) -> Result<Values, Stop>
    requires runnable { IsRunnableArm (bases_of scope.now) (match_arm_tree arm.now) }
    ensures { LateAnswer result (arm_taken (calls_in caller.now.number caller.now.late.now.defs.items) (bases_of scope.now)
        (match_arm_tree arm.now) env.old)
        × OnOk result (env.new ≡ env.old) }
{
    let values = variables(caller.alloc, scope, arm, env)?;
    behind(caller, values, &arm.body, env)
}
