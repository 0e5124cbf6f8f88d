//! Two solutions of a choose that are found by trying.
ghost use Rattle.std.specs.Prelude.{IfOk};
ghost use Rattle.cf_tree.specs.RelView.{rel_tree};
ghost use Rattle.cf_decide.specs.Finding.{IsFound};

use crate::exchange::exchanged;
use crate::searching::{Found, found_at};
use crate::trials::{Patience, Trials, trial_count};
use crate::trying::sample_in;
use cf_choose::Solved;
use cf_eval::{Outcome, Value, run_code};
use cf_tree::{Base, Code, NoMemory, Rel, without};
use cf_warn::{parameters, tuple_count};
use std::alloc::Global;

// A solved choose, its parameters, and the code of its arms.
#[derive(Clone, Copy)]
pub(crate) struct Arms<'a> {
    pub solved: &'a Solved,
    pub params: &'a [u32],
    pub code: &'a Code,
}

/// What is found of the question whether a choose has two solutions, where its arms are run on some inputs, and two elements
/// of what they give are exchanged.
pub(crate) fn two_solutions(
    alloc: Global,
    solved: &Solved,
    bases: &[Base],
    rel: &Rel,
) -> Result<Found, NoMemory>
    ensures { IfOk result (IsFound bases.now (rel_tree rel.now)) }
{
    if !has_set(solved.outputs()) {
        return Ok(Found::Nothing);
    }
    let params = parameters(alloc, solved)?;
    let count = trial_count(params.len(), tuple_count(solved)?, Patience::long());
    let code = solved.code(alloc, 1)?;
    let mut trials = Trials::new(alloc, solved, &params)?;
    let arms = Arms {
        solved,
        params: &params,
        code: &code,
    };
    first_two(alloc, &arms, bases, rel, &mut trials, count)
}

fn has_set(bases: &[Base]) -> bool {
    for base in bases {
        if *base == Base::Set {
            return true;
        }
    }
    false
}

// What is found in the first of so many trials that shows two solutions.
fn first_two(
    alloc: Global,
    arms: &Arms<'_>,
    bases: &[Base],
    rel: &Rel,
    trials: &mut Trials,
    count: u64,
) -> Result<Found, NoMemory>
    ensures { IfOk result (IsFound bases.now (rel_tree rel.now)) }
{
    for _ in 0..count {
        match two_next(alloc, arms, bases, rel, trials)? {
            Found::At(values) => return Ok(Found::At(values)),
            Found::Never => trials.advance(),
            Found::Nothing => trials.advance(),
        }
    }
    Ok(Found::Nothing)
}

// What is found in the next trial.
fn two_next(
    alloc: Global,
    arms: &Arms<'_>,
    bases: &[Base],
    rel: &Rel,
    trials: &Trials,
) -> Result<Found, NoMemory>
    ensures { IfOk result (IsFound bases.now (rel_tree rel.now)) }
{
    match candidate(alloc, arms, trials) {
        Ok(Some(values)) => found_at(alloc, bases, rel, values),
        Ok(None) => Ok(Found::Nothing),
        Err(fault) => Err(fault),
    }
}

// The sample of the next trial, what the arms give for it, and that with an exchange.
fn candidate(
    alloc: Global,
    arms: &Arms<'_>,
    trials: &Trials,
) -> Result<Option<Vec<Value>>, NoMemory> {
    match trials.environment(alloc, arms.solved.scope(), arms.params) {
        Ok(Some(env)) => candidate_at(alloc, arms, &env),
        Ok(None) => Ok(None),
        Err(fault) => Err(fault),
    }
}

fn candidate_at(
    alloc: Global,
    arms: &Arms<'_>,
    env: &[Value],
) -> Result<Option<Vec<Value>>, NoMemory> {
    match run_code(alloc, arms.code, env) {
        Ok(Outcome::Values(outputs)) => with_exchange(alloc, arms.params, env, outputs),
        Ok(Outcome::NoSolution(_)) => Ok(None),
        Ok(Outcome::Overflow) => Ok(None),
        Err(fault) => Err(fault),
    }
}

fn with_exchange(
    alloc: Global,
    params: &[u32],
    env: &[Value],
    outputs: Vec<Value>,
) -> Result<Option<Vec<Value>>, NoMemory> {
    match exchanged(alloc, env, &outputs) {
        Ok(Some(others)) => Ok(Some(behind_sample(alloc, params, env, outputs, others)?)),
        Ok(None) => Ok(without(outputs, None)),
        Err(fault) => Err(without(outputs, fault)),
    }
}

// The values of the parameters, these outputs and the others.
fn behind_sample(
    alloc: Global,
    params: &[u32],
    env: &[Value],
    outputs: Vec<Value>,
    others: Vec<Value>,
) -> Result<Vec<Value>, NoMemory> {
    let mut first = outputs;
    let mut second = others;
    let mut values = sample_in(alloc, params, env)?;
    values.append(&mut first)?;
    values.append(&mut second)?;
    Ok(values)
}
