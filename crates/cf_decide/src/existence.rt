//! Whether outputs always exist.
ghost use Rattle.std.specs.Prelude.{◌≡◌, ◌≤◌, length, true, IfOk};
ghost use Rattle.cf_tree.specs.RelView.{rel_tree};
ghost use Rattle.cf_warn.specs.Answering.{IsMissingOf};
ghost use Rattle.cf_warn.specs.Missing.{none, none_outputs};
ghost use Rattle.cf_warn.specs.Questions.{parameters};
ghost use Rattle.cf_warn.specs.Solutions.{AreAlways};
ghost use Rattle.cf_warn.specs.declared.answer.ExistenceAnswer.TheVariants.{Always};
ghost use Rattle.cf_decide.specs.Answers.{SaysExistence};
ghost use Rattle.cf_decide.specs.Finding.{IsFound};

use crate::effort::Effort;
use crate::guess::guessed;
use crate::narrow::narrowed;
use crate::scale::Scale;
use crate::searching::{Found, search, untold};
use crate::trials::Patience;
use crate::trying::missing_sample;
use crate::witness::is_witness;
use cf_choose::Solved;
use cf_eval::Value;
use cf_tree::{NoMemory, Rel, without};
use cf_warn::{ExistenceAnswer, MOST_TUPLES, existence, none, parameters, tuple_count};
use std::alloc::Global;

/// Whether a choose has outputs for every choice of its parameters: `Always` where it has, `Missing` with a sample of the
/// parameters for which it has none, or a doubt, which promises nothing.
///
/// # Errors
/// `NoMemory` where memory ran out.
pub fn decide_existence(
    alloc: Global,
    solved: &Solved,
    effort: Effort,
) -> Result<ExistenceAnswer, NoMemory>
    ensures { IfOk result (SaysExistence solved.now.scope.items solved.now.outputs.items (rel_tree solved.now.rel)) }
{
    match effort {
        Effort::Elimination => by_elimination(alloc, solved),
        Effort::Refutation => by_sample(alloc, solved),
    }
}

fn by_elimination(alloc: Global, solved: &Solved) -> Result<ExistenceAnswer, NoMemory>
    ensures { IfOk result (SaysExistence solved.now.scope.items solved.now.outputs.items (rel_tree solved.now.rel)) }
{
    existence(alloc, solved)
}

// A sample that is soon found by trying, or what else is found.
fn by_sample(alloc: Global, solved: &Solved) -> Result<ExistenceAnswer, NoMemory>
    ensures { IfOk result (SaysExistence solved.now.scope.items solved.now.outputs.items (rel_tree solved.now.rel)) }
{
    match missing_sample(alloc, solved, Patience::short())? {
        Some(sample) => Ok(ExistenceAnswer::Missing(sample)),
        None => by_searches(alloc, solved),
    }
}

// What a first search finds, or that a witness shows that outputs always exist, or what else is found.
fn by_searches(alloc: Global, solved: &Solved) -> Result<ExistenceAnswer, NoMemory>
    ensures { IfOk result (SaysExistence solved.now.scope.items solved.now.outputs.items (rel_tree solved.now.rel)) }
{
    let answer = by_search(alloc, solved, Scale::first())?;
    if !is_undecided(&answer) {
        return Ok(answer);
    }
    drop(answer);
    if is_shown(alloc, solved)? {
        return Ok(ExistenceAnswer::Always);
    }
    by_more(alloc, solved)
}

// What a longer search finds, or a sample that is found by longer trying, or what the elimination tells.
fn by_more(alloc: Global, solved: &Solved) -> Result<ExistenceAnswer, NoMemory>
    ensures { IfOk result (SaysExistence solved.now.scope.items solved.now.outputs.items (rel_tree solved.now.rel)) }
{
    let answer = by_search(alloc, solved, Scale::second())?;
    if !is_undecided(&answer) {
        return Ok(answer);
    }
    drop(answer);
    match missing_sample(alloc, solved, Patience::long())? {
        Some(sample) => Ok(ExistenceAnswer::Missing(sample)),
        None => by_elimination(alloc, solved),
    }
}

fn is_undecided(answer: &ExistenceAnswer) -> bool {
    match answer {
        ExistenceAnswer::Undecided(_) => true,
        ExistenceAnswer::Always | ExistenceAnswer::Missing(_) => false,
    }
}

// What a search of this scale finds. For many tuples of arms the question is not written.
pub(crate) fn by_search(
    alloc: Global,
    solved: &Solved,
    scale: Scale,
) -> Result<ExistenceAnswer, NoMemory>
    ensures { IfOk result (SaysExistence solved.now.scope.items solved.now.outputs.items (rel_tree solved.now.rel)) }
{
    let tuples = tuple_count(solved)?;
    if tuples > MOST_TUPLES {
        return Ok(ExistenceAnswer::Undecided(untold()));
    }
    let params = parameters(alloc, solved)?;
    let found = searched(alloc, solved, &params, scale)?;
    answer(solved, params.len(), found)
}

// What a search finds of the question whether outputs are missing.
fn searched(alloc: Global, solved: &Solved, params: &[u32], scale: Scale) -> Result<Found, NoMemory>
    requires { params.now ≡ parameters solved.now.scope.items (rel_tree solved.now.rel) }
    ensures { IfOk result (IsFound (none_outputs solved.now.scope.items solved.now.outputs.items (rel_tree solved.now.rel))
        (none solved.now.scope.items solved.now.outputs.items (rel_tree solved.now.rel))) }
{
    // for the proof: the choose is solved
    let _ = solved.outputs();
    let question = none(alloc, solved, params)?;
    let found = search(alloc, &question.outputs, &question.rel, scale);
    without(question, found)
}

// The answer, where this is found of the question.
fn answer(solved: &Solved, count: usize, found: Found) -> Result<ExistenceAnswer, NoMemory>
    requires count { count ≡ length (parameters solved.now.scope.items (rel_tree solved.now.rel)) }
    requires found { IsFound (none_outputs solved.now.scope.items solved.now.outputs.items (rel_tree solved.now.rel))
        (none solved.now.scope.items solved.now.outputs.items (rel_tree solved.now.rel)) found }
    ensures { IfOk result (SaysExistence solved.now.scope.items solved.now.outputs.items (rel_tree solved.now.rel)) }
{
    // for the proof: the choose is solved
    let _ = solved.outputs();
    match found {
        Found::Never => Ok(ExistenceAnswer::Always),
        Found::At(values) => missing(values, count),
        Found::Nothing => Ok(ExistenceAnswer::Undecided(untold())),
    }
}

// So many first values as the sample.
fn missing(values: Vec<Value>, count: usize) -> Result<ExistenceAnswer, NoMemory>
    requires { count ≤ length values.items }
    ensures { IfOk result (IsMissingOf count values.items) }
{
    let mut sample = values;
    match sample.split_off(count) {
        Ok(_) => Ok(ExistenceAnswer::Missing(sample)),
        Err(_) => Err(without(sample, NoMemory)),
    }
}

// Whether a witness is guessed that shows that outputs always exist.
fn is_shown(alloc: Global, solved: &Solved) -> Result<bool, NoMemory>
    ensures { IfOk result (λ b. b ≡ true → AreAlways solved.now.scope.items solved.now.outputs.items (rel_tree solved.now.rel)) }
{
    let guess = guessed(alloc, solved)?;
    if is_shown_by(alloc, solved, guess)? {
        return Ok(true);
    }
    let guess = narrowed(alloc, solved)?;
    is_shown_by(alloc, solved, guess)
}

fn is_shown_by(alloc: Global, solved: &Solved, guess: Option<Rel>) -> Result<bool, NoMemory>
    ensures { IfOk result (λ b. b ≡ true → AreAlways solved.now.scope.items solved.now.outputs.items (rel_tree solved.now.rel)) }
{
    match guess {
        Some(witness) => {
            let told = is_witness(alloc, solved, &witness);
            without(witness, told)
        }
        None => Ok(false),
    }
}

// Whether it is found that outputs always exist.
pub(crate) fn is_always(answer: &ExistenceAnswer) -> bool
    ensures { result ≡ true → answer.now ≡ Always }
{
    match answer {
        ExistenceAnswer::Always => true,
        ExistenceAnswer::Missing(_) => false,
        ExistenceAnswer::Undecided(_) => false,
    }
}
