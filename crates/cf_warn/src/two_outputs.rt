//! Whether the outputs of a choose are the only ones.
ghost use Rattle.std.specs.Prelude.{◌≡◌, ◌+◌, ◌≤◌, IfOk, length};
ghost use Rattle.cf_tree.specs.RelView.{rel_tree};
ghost use Rattle.cf_warn.specs.Questions.{parameters, twice, twice_outputs};
ghost use Rattle.cf_warn.specs.Verdicts.{IsUniqueness};
ghost use Rattle.cf_warn.specs.Answering.{IsAsked, IsTwoOf};

use crate::answer::UniquenessAnswer;
use crate::ask::{Asked, ask};
use crate::twice_question::{twice, twice_outputs};
use crate::used_parameters::parameters;
use cf_choose::Solved;
use cf_eval::Value;
use cf_tree::{NoMemory, without};
use std::alloc::Global;

/// Whether a choose has two solutions with the same parameters that differ in one of the first so many
/// outputs, which are shown: `Unique` where it has none, `Two` solutions at one sample, or the doubt of
/// the question.
///
/// # Errors
/// `NoMemory` where memory ran out.
pub fn uniqueness(
    alloc: Global,
    solved: &Solved,
    shown: usize,
) -> Result<UniquenessAnswer, NoMemory>
    ensures { IfOk result (IsUniqueness solved.now.scope.items solved.now.outputs.items shown (rel_tree solved.now.rel)) }
{
    let params = parameters(alloc, solved)?;
    let count = params.len();
    let asked = ask_twice(alloc, solved, params, shown)?;
    answer(solved, count, shown, asked)
}

// What the question answers.
fn ask_twice(
    alloc: Global,
    solved: &Solved,
    params: Vec<u32>,
    shown: usize,
) -> Result<Asked, NoMemory>
    requires { params.items ≡ parameters solved.now.scope.items (rel_tree solved.now.rel) }
    ensures { IfOk result (IsAsked (twice_outputs solved.now.scope.items solved.now.outputs.items (rel_tree solved.now.rel))
        (twice solved.now.scope.items solved.now.outputs.items shown (rel_tree solved.now.rel))) }
{
    let outputs = twice_outputs(alloc, solved, &params)?;
    let rel = twice(alloc, solved, params, shown)?;
    let asked = ask(alloc, &outputs, &rel);
    without(rel, asked)
}

// The verdict, where the question answers this.
fn answer(
    solved: &Solved,
    count: usize,
    shown: usize,
    asked: Asked,
) -> Result<UniquenessAnswer, NoMemory>
    requires count { count ≡ length (parameters solved.now.scope.items (rel_tree solved.now.rel)) }
    requires asked { IsAsked (twice_outputs solved.now.scope.items solved.now.outputs.items (rel_tree solved.now.rel))
        (twice solved.now.scope.items solved.now.outputs.items shown (rel_tree solved.now.rel)) asked }
    ensures { IfOk result (IsUniqueness solved.now.scope.items solved.now.outputs.items shown (rel_tree solved.now.rel)) }
{
    let outputs = solved.outputs().len();
    match asked {
        Asked::Solution(values) => two(values, count, outputs),
        Asked::NoSolution => Ok(UniquenessAnswer::Unique),
        Asked::Undecided(doubt) => Ok(UniquenessAnswer::Undecided(doubt)),
    }
}

// So many values as the sample, so many as the first solution, and the rest as the second.
fn two(values: Vec<Value>, count: usize, outputs: usize) -> Result<UniquenessAnswer, NoMemory>
    requires { count + outputs ≤ length values.items }
    ensures { IfOk result (IsTwoOf count outputs values.items) }
{
    let mut sample = values;
    let mut first = match sample.split_off(count) {
        Ok(first) => first,
        Err(_) => return Err(without(sample, NoMemory)),
    };
    match first.split_off(outputs) {
        Ok(second) => Ok(UniquenessAnswer::Two {
            sample,
            first,
            second,
        }),
        Err(_) => Err(without(sample, without(first, NoMemory))),
    }
}
