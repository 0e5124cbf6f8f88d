//! The relation of a choose with fewer outputs, to be tried as a witness: each output is a number that the arms gave for
//! some input, more than so many times each parameter. With few outputs the arms search little. Nothing is promised of it.
use crate::guess::{Share, are_numbers, plus};
use crate::second::Arms;
use crate::trials::{Patience, Trials, push_new, trial_count};
use crate::witness::missed;
use cf_choose::Solved;
use cf_eval::{Outcome, Value, run_code};
use cf_holds::{HoldFault, holds_at};
use cf_linear::place;
use cf_set::Set;
use cf_tree::{Base, NoMemory, Order, Rel, Term, add_u32, to_u32, without};
use cf_warn::{parameters, tuple_count};
use std::alloc::Global;

/// The most inputs for which outputs are compared.
const MOST_RUNS: usize = 64;

/// The most numbers of one output. One with more is left free.
const MOST_OFFSETS: usize = 6;

/// How often inputs for which the relation has no outputs add theirs.
const MOST_ROUNDS: u32 = 12;

/// The values of the parameters, and what the arms give for them.
#[derive(Drop)]
struct Run {
    inputs: Vec<i128>,
    outputs: Vec<i128>,
}

/// An output: so many times each parameter, and one of the offsets.
#[derive(Drop)]
struct Pin {
    level: u32,
    factors: Vec<i128>,
    offsets: Vec<i128>,
}

impl Pin {
    fn is_free(&self) -> bool {
        self.offsets.len() > MOST_OFFSETS
    }

    // Adds the offset of the output at that place. Whether it is new.
    fn add(&mut self, run: &Run, place: usize) -> Result<bool, NoMemory> {
        let before = self.offsets.len();
        if let Some(offset) = offset_of(run, place, &self.factors) {
            push_new(&mut self.offsets, offset)?;
        }
        Ok(self.offsets.len() > before)
    }
}

/// What a round comes to.
#[derive(Drop)]
enum Course {
    Ends(Option<Rel>),
    GoesOn,
}

/// The relation with fewer outputs, if all parameters and outputs are numbers and the arms give some.
pub(crate) fn narrowed(alloc: Global, solved: &Solved) -> Result<Option<Rel>, NoMemory> {
    let params = parameters(alloc, solved)?;
    if !are_numbers(solved.outputs()) || !are_levels_of_numbers(solved.scope(), &params) {
        return Ok(None);
    }
    let code = solved.code(alloc, 1)?;
    let arms = Arms {
        solved,
        params: &params,
        code: &code,
    };
    let runs = first_runs(alloc, &arms)?;
    if runs.is_empty() {
        return Ok(None);
    }
    in_rounds(alloc, &arms, &runs)
}

fn are_levels_of_numbers(scope: &[Base], params: &[u32]) -> bool {
    for level in params {
        match scope.get(*level as usize) {
            Some(Base::Int) => {}
            _ => return false,
        }
    }
    true
}

fn in_rounds(alloc: Global, arms: &Arms<'_>, runs: &[Run]) -> Result<Option<Rel>, NoMemory> {
    let mut pins = pins_of(alloc, arms, runs)?;
    for _ in 0..MOST_ROUNDS {
        match round(alloc, arms, &mut pins)? {
            Course::Ends(told) => return Ok(told),
            Course::GoesOn => {}
        }
    }
    Ok(None)
}

// Ends with the relation, unless it is found to have no outputs for some input, or where no output is pinned.
fn round(alloc: Global, arms: &Arms<'_>, pins: &mut Vec<Pin>) -> Result<Course, NoMemory> {
    if are_free(pins) {
        return Ok(Course::Ends(None));
    }
    let witness = pinned(alloc, arms, pins)?;
    match missed(alloc, arms.solved, &witness) {
        Ok(Some(sample)) => with_sample(alloc, arms, pins, without(witness, sample)),
        Ok(None) => Ok(Course::Ends(Some(witness))),
        Err(fault) => Err(without(witness, fault)),
    }
}

fn are_free(pins: &[Pin]) -> bool {
    for pin in pins {
        if !pin.is_free() {
            return false;
        }
    }
    true
}

// Goes on with the outputs that the arms give for the sample, unless they are no new ones.
fn with_sample(
    alloc: Global,
    arms: &Arms<'_>,
    pins: &mut [Pin],
    sample: Vec<Value>,
) -> Result<Course, NoMemory> {
    let env = environment(alloc, arms, &sample);
    let run = run_at(alloc, arms, without(sample, env)?)?;
    match run {
        Some(run) => {
            if widen(pins, &run)? {
                Ok(Course::GoesOn)
            } else {
                Ok(Course::Ends(None))
            }
        }
        None => Ok(Course::Ends(None)),
    }
}

fn widen(pins: &mut [Pin], run: &Run) -> Result<bool, NoMemory> {
    let mut wider = false;
    for place in 0..pins.len() {
        if let Some(pin) = pins.get_mut(place) {
            if pin.add(run, place)? {
                wider = true;
            }
        }
    }
    Ok(wider)
}

// ---- runs of the arms
fn first_runs(alloc: Global, arms: &Arms<'_>) -> Result<Vec<Run>, NoMemory> {
    let tuples = tuple_count(arms.solved)?;
    let count = trial_count(arms.params.len(), tuples, Patience::short());
    let mut trials = Trials::new(alloc, arms.solved, arms.params)?;
    let mut runs = Vec::new(alloc);
    for _ in 0..count {
        if runs.len() < MOST_RUNS {
            push_next(alloc, arms, &trials, &mut runs)?;
            trials.advance();
        }
    }
    Ok(runs)
}

// Adds what the arms give for the next input that is tried.
fn push_next(
    alloc: Global,
    arms: &Arms<'_>,
    trials: &Trials,
    runs: &mut Vec<Run>,
) -> Result<(), NoMemory> {
    match trials.environment(alloc, arms.solved.scope(), arms.params) {
        Ok(Some(env)) => push_run(alloc, arms, env, runs),
        Ok(None) => Ok(()),
        Err(fault) => Err(fault),
    }
}

fn push_run(
    alloc: Global,
    arms: &Arms<'_>,
    env: Vec<Value>,
    runs: &mut Vec<Run>,
) -> Result<(), NoMemory> {
    match run_at(alloc, arms, env)? {
        Some(run) => {
            runs.push(run)?;
            Ok(())
        }
        None => Ok(()),
    }
}

// What the arms give in an environment, if it is told by what a condition is for.
fn run_at(alloc: Global, arms: &Arms<'_>, env: Vec<Value>) -> Result<Option<Run>, NoMemory> {
    match run_code(alloc, arms.code, &env) {
        Ok(Outcome::Values(outputs)) => told_run(alloc, arms, env, outputs),
        Ok(Outcome::NoSolution(_)) => Ok(without(env, None)),
        Ok(Outcome::Overflow) => Ok(without(env, None)),
        Err(fault) => Err(without(env, fault)),
    }
}

fn told_run(
    alloc: Global,
    arms: &Arms<'_>,
    env: Vec<Value>,
    outputs: Vec<Value>,
) -> Result<Option<Run>, NoMemory> {
    let mut values = env;
    let mut others = outputs;
    values.append(&mut others)?;
    if is_told(alloc, arms.solved.relation(), &values)? {
        Ok(Some(run_of(alloc, arms, &values)?))
    } else {
        Ok(None)
    }
}

// Whether the relation holds, or of one that holds where a condition fails the other part.
fn is_told(alloc: Global, rel: &Rel, values: &[Value]) -> Result<bool, NoMemory> {
    match rel {
        Rel::Or(a, b) => {
            if is_negation(a) {
                holds(alloc, b, values)
            } else {
                Ok(true)
            }
        }
        _ => Ok(true),
    }
}

fn is_negation(rel: &Rel) -> bool {
    match rel {
        Rel::Not(_) => true,
        _ => false,
    }
}

fn holds(alloc: Global, rel: &Rel, values: &[Value]) -> Result<bool, NoMemory> {
    match holds_at(alloc, rel, values) {
        Ok(holds) => Ok(holds),
        Err(HoldFault::Past) => Ok(false),
        Err(HoldFault::NoMemory) => Err(NoMemory),
    }
}

// The numbers of the parameters, and of the outputs behind the scope.
fn run_of(alloc: Global, arms: &Arms<'_>, values: &[Value]) -> Result<Run, NoMemory> {
    let mut inputs = Vec::new(alloc);
    for level in arms.params {
        inputs.push(number_in(values, *level as usize))?;
    }
    let outputs = outputs_of(alloc, arms, values)?;
    Ok(Run { inputs, outputs })
}

fn outputs_of(alloc: Global, arms: &Arms<'_>, values: &[Value]) -> Result<Vec<i128>, NoMemory> {
    let mut outputs = Vec::new(alloc);
    for place in arms.solved.scope().len()..values.len() {
        outputs.push(number_in(values, place))?;
    }
    Ok(outputs)
}

fn number_in(values: &[Value], place: usize) -> i128 {
    match values.get(place) {
        Some(Value::Int(number)) => *number,
        _ => 0,
    }
}

// The values of the variables in scope where the parameters have these.
fn environment(alloc: Global, arms: &Arms<'_>, sample: &[Value]) -> Result<Vec<Value>, NoMemory> {
    let mut values = Vec::new(alloc);
    let mut level: u32 = 0;
    for base in arms.solved.scope() {
        let number = number_in(sample, place(level, arms.params));
        match value_of(alloc, *base, number) {
            Ok(value) => values.push(value)?,
            Err(fault) => return Err(without(values, fault)),
        }
        level = level.saturating_add(1);
    }
    Ok(values)
}

fn value_of(alloc: Global, base: Base, number: i128) -> Result<Value, NoMemory> {
    match base {
        Base::Int => Ok(Value::Int(number)),
        Base::Set => Ok(Value::Elements(Set::from_list(alloc, &[])?)),
        Base::Bool => Ok(Value::Truth(false)),
    }
}

// ---- what outputs have in common
// How each output is told, with the offset of the first run.
fn pins_of(alloc: Global, arms: &Arms<'_>, runs: &[Run]) -> Result<Vec<Pin>, NoMemory> {
    let first = to_u32(arms.solved.scope().len())?;
    let mut pins = Vec::new(alloc);
    for place in 0..arms.solved.outputs().len() {
        let level = add_u32(first, to_u32(place)?)?;
        let factors = factors_of(alloc, arms.params.len(), runs, place)?;
        pins.push(pin_of(alloc, level, factors, runs, place)?)?;
    }
    Ok(pins)
}

fn pin_of(
    alloc: Global,
    level: u32,
    factors: Vec<i128>,
    runs: &[Run],
    place: usize,
) -> Result<Pin, NoMemory> {
    let mut pin = Pin {
        level,
        factors,
        offsets: Vec::new(alloc),
    };
    if let Some(run) = runs.get(0) {
        pin.add(run, place)?;
    }
    Ok(pin)
}

// How often each parameter is in the output, if fewer offsets are left so.
fn factors_of(
    alloc: Global,
    params: usize,
    runs: &[Run],
    place: usize,
) -> Result<Vec<i128>, NoMemory> {
    let mut factors = Vec::new(alloc);
    for param in 0..params {
        factors.push(factor_of(runs, param, place))?;
    }
    let mut zeros = Vec::new(alloc);
    zeros.resize(params, 0)?;
    if offset_count(alloc, runs, place, &factors)? < offset_count(alloc, runs, place, &zeros)? {
        Ok(factors)
    } else {
        Ok(zeros)
    }
}

// How much more the output is where the parameter is more by one, in the first two runs that show it.
fn factor_of(runs: &[Run], param: usize, place: usize) -> i128 {
    for run in runs {
        if let Some(factor) = factor_behind(runs, run, param, place) {
            return factor;
        }
    }
    0
}

fn factor_behind(runs: &[Run], run: &Run, param: usize, place: usize) -> Option<i128> {
    for other in runs {
        if is_next(&run.inputs, &other.inputs, param) {
            return number_at(&other.outputs, place).checked_sub(number_at(&run.outputs, place));
        }
    }
    None
}

// Whether the others are the same inputs, but one more of the parameter.
fn is_next(inputs: &[i128], others: &[i128], param: usize) -> bool {
    for (place, input) in inputs.iter().enumerate() {
        let more = if place == param { 1 } else { 0 };
        if number_at(others, place) != input.saturating_add(more) {
            return false;
        }
    }
    true
}

fn number_at(numbers: &[i128], place: usize) -> i128 {
    match numbers.get(place) {
        Some(number) => *number,
        None => 0,
    }
}

fn offset_count(
    alloc: Global,
    runs: &[Run],
    place: usize,
    factors: &[i128],
) -> Result<usize, NoMemory> {
    let mut offsets = Vec::new(alloc);
    for run in runs {
        if let Some(offset) = offset_of(run, place, factors) {
            push_new(&mut offsets, offset)?;
        }
    }
    Ok(offsets.len())
}

// How much the output is more than so many times each parameter.
fn offset_of(run: &Run, place: usize, factors: &[i128]) -> Option<i128> {
    let mut offset = number_at(&run.outputs, place);
    for (param, factor) in factors.iter().enumerate() {
        let product = factor.checked_mul(number_at(&run.inputs, param))?;
        offset = offset.checked_sub(product)?;
    }
    Some(offset)
}

// ---- the relation
fn pinned(alloc: Global, arms: &Arms<'_>, pins: &[Pin]) -> Result<Rel, NoMemory> {
    let mut all = arms.solved.relation().try_copy(alloc)?;
    for pin in pins {
        if !pin.is_free() {
            all = and_pin(alloc, all, arms.params, pin)?;
        }
    }
    Ok(all)
}

fn and_pin(alloc: Global, all: Rel, params: &[u32], pin: &Pin) -> Result<Rel, NoMemory> {
    match one_of(alloc, params, pin) {
        Ok(told) => Ok(Rel::And(Box::new(alloc, all)?, told)),
        Err(fault) => Err(without(all, fault)),
    }
}

// That the output has one of the offsets.
fn one_of(alloc: Global, params: &[u32], pin: &Pin) -> Result<Box<Rel>, NoMemory> {
    match pin.offsets.split_first() {
        Some((first, others)) => {
            let mut told = equals(alloc, params, pin, *first)?;
            for offset in others {
                told = or_equals(alloc, told, params, pin, *offset)?;
            }
            Ok(told)
        }
        None => Ok(Box::new(alloc, Rel::False)?),
    }
}

fn or_equals(
    alloc: Global,
    told: Box<Rel>,
    params: &[u32],
    pin: &Pin,
    offset: i128,
) -> Result<Box<Rel>, NoMemory> {
    match equals(alloc, params, pin, offset) {
        Ok(other) => Ok(Box::new(alloc, Rel::Or(told, other))?),
        Err(fault) => Err(without(told, fault)),
    }
}

fn equals(alloc: Global, params: &[u32], pin: &Pin, offset: i128) -> Result<Box<Rel>, NoMemory> {
    let right = Box::new(alloc, form_of(alloc, params, &pin.factors, offset)?)?;
    let left = Box::new(alloc, Term::Var(pin.level))?;
    let order = Order::Eq;
    Ok(Box::new(alloc, Rel::Compare { order, left, right })?)
}

// The offset, and so many times each parameter.
fn form_of(
    alloc: Global,
    params: &[u32],
    factors: &[i128],
    offset: i128,
) -> Result<Term, NoMemory> {
    let mut form = Term::Lit(offset);
    for (param, level) in params.iter().enumerate() {
        let share = Share {
            level: *level,
            entry: number_at(factors, param),
        };
        if share.entry != 0 {
            form = plus(alloc, form, share)?;
        }
    }
    Ok(form)
}
