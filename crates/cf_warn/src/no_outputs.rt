//! Whether a choose has outputs for every choice of its parameters.
ghost use Rattle.std.specs.Prelude.{◌≡◌, ◌≤◌, IfOk, length};
ghost use Rattle.cf_tree.specs.RelView.{rel_tree};
ghost use Rattle.cf_warn.specs.Missing.{none, none_outputs, tuple_count};
ghost use Rattle.cf_warn.specs.Questions.{parameters};
ghost use Rattle.cf_warn.specs.Answering.{IsAsked, IsMissingOf};
ghost use Rattle.cf_linear.specs.declared.refusal.LimitKind.TheVariants.{Search};
ghost use Rattle.cf_linear.specs.declared.refusal.Refusal.TheVariants.{Limit};
ghost use Rattle.cf_warn.specs.declared.answer.Doubt.TheVariants.{Refused};
ghost use Rattle.cf_warn.specs.declared.no_outputs.TheConstants.{MOST_TUPLES};
ghost use Rattle.cf_warn.specs.Verdicts.{IsExistence};

use crate::answer::{Doubt, ExistenceAnswer};
use crate::ask::{Asked, ask};
use crate::none_question::none;
use crate::tuples::tuple_count;
use crate::used_parameters::parameters;
use cf_choose::Solved;
use cf_eval::Value;
use cf_linear::{LimitKind, Refusal};
use cf_tree::{NoMemory, without};
use std::alloc::Global;

/// The most tuples of all arms for which the question is written.
pub const MOST_TUPLES: u64 = 1000;

/// Whether a choose has outputs for every choice of its parameters: `Always` where it has, `Missing`
/// with a sample of the parameters for which it has none, or the doubt of the question. Where the
/// arms have more than `MOST_TUPLES` tuples, the question is refused as Search with their number
/// before it is written.
///
/// # Errors
/// `NoMemory` where memory ran out.
#[tactic(auto, using(crate::proofs::ExistenceLaws::many_undecided, crate::proofs::ExistenceLaws::few_tuples))]
pub fn existence(alloc: Global, solved: &Solved) -> Result<ExistenceAnswer, NoMemory>
    ensures { IfOk result (IsExistence solved.now.scope.items solved.now.outputs.items (rel_tree solved.now.rel)) }
{
    let tuples = tuple_count(solved)?;
    if tuples > MOST_TUPLES {
        return Ok(ExistenceAnswer::Undecided(many(tuples)));
    }
    let params = parameters(alloc, solved)?;
    let asked = ask_written(alloc, solved, &params)?;
    answer(solved, params.len(), asked)
}

// The refusal of so many tuples.
fn many(tuples: u64) -> Doubt
    ensures { result ≡ Refused (Limit Search tuples) }
{
    Doubt::Refused(Refusal::Limit {
        kind: LimitKind::Search,
        number: tuples,
    })
}

// What the question answers.
#[tactic(auto, using(crate::proofs::ExistenceLaws::written_asked))]
fn ask_written(alloc: Global, solved: &Solved, params: &[u32]) -> Result<Asked, NoMemory>
    requires { params.now ≡ parameters solved.now.scope.items (rel_tree solved.now.rel) }
    ensures { IfOk result (IsAsked (none_outputs solved.now.scope.items solved.now.outputs.items (rel_tree solved.now.rel))
        (none solved.now.scope.items solved.now.outputs.items (rel_tree solved.now.rel))) }
{
    // for the proof: the outputs are named by the clauses
    let _ = solved.outputs();
    let question = none(alloc, solved, params)?;
    let asked = ask(alloc, &question.outputs, &question.rel);
    without(question, asked)
}

// The verdict, where the arms have few tuples and the question answers this.
#[tactic(auto, using(crate::proofs::ExistenceLaws::missing_verdict, crate::proofs::ExistenceLaws::always_verdict, crate::proofs::ExistenceLaws::sample_fits))]
fn answer(solved: &Solved, count: usize, asked: Asked) -> Result<ExistenceAnswer, NoMemory>
    requires count { count ≡ length (parameters solved.now.scope.items (rel_tree solved.now.rel)) }
    requires few { tuple_count solved.now.scope.items solved.now.outputs.items (rel_tree solved.now.rel) ≤ MOST_TUPLES }
    requires asked { IsAsked (none_outputs solved.now.scope.items solved.now.outputs.items (rel_tree solved.now.rel))
        (none solved.now.scope.items solved.now.outputs.items (rel_tree solved.now.rel)) asked }
    ensures { IfOk result (IsExistence solved.now.scope.items solved.now.outputs.items (rel_tree solved.now.rel)) }
{
    // for the proof: the outputs are named by the clauses
    let _ = solved.outputs();
    match asked {
        Asked::Solution(values) => missing(values, count),
        Asked::NoSolution => Ok(ExistenceAnswer::Always),
        Asked::Undecided(doubt) => Ok(ExistenceAnswer::Undecided(doubt)),
    }
}

// So many first values as the sample.
fn missing(values: Vec<Value>, count: usize) -> Result<ExistenceAnswer, NoMemory>
    requires { count ≤ length values.items }
    ensures { IfOk result (IsMissingOf count values.items) }
{
    let mut sample = values;
    match sample.split_off(count) {
        Ok(_) => Ok(ExistenceAnswer::Missing(sample)),
        Err(_) => Err(without(sample, NoMemory)),
    }
}
