//! The question whether outputs are missing.
ghost use Rattle.std.specs.Prelude.{◌≡◌, ◌+◌, IfOk, map, length};
ghost use Rattle.cf_tree.specs.RelView.{rel_tree};
ghost use Rattle.cf_warn.specs.Missing.{turns, lets_in, traced, none, none_outputs};
ghost use Rattle.cf_warn.specs.Questions.{parameters};
ghost use Rattle.cf_warn.specs.Writing.{all_say};

use crate::draft::Draft;
use crate::halves::{Join, joined};
use crate::regions::first_forms;
use crate::used_parameters::bases_at;
use cf_choose::Solved;
use cf_tree::{Base, NoMemory, Rel, to_u32};
use std::alloc::Global;

/// A question: the relation of a choose without parameters.
#[derive(Drop)]
pub struct Question {
    /// The bases of its outputs.
    pub outputs: Vec<Base>,
    /// The relation over them.
    pub rel: Rel,
}

/// The question whether outputs are missing: that no search tuple of no arm meets all needs, over the
/// parameters and one number for each let.
///
/// # Errors
/// `NoMemory` where memory ran out, or a level does not fit in 32 bits.
#[tactic(auto, using(crate::proofs::QuestionLaws::outputs_are))]
pub fn none(alloc: Global, solved: &Solved, params: &[u32]) -> Result<Question, NoMemory>
    requires { params.now ≡ parameters solved.now.scope.items (rel_tree solved.now.rel) }
    ensures outputs { IfOk result (λ q. q.outputs.items ≡ none_outputs solved.now.scope.items solved.now.outputs.items (rel_tree solved.now.rel)) }
    ensures rel { IfOk result (λ q. rel_tree q.rel ≡ none solved.now.scope.items solved.now.outputs.items (rel_tree solved.now.rel)) }
{
    let draft = written(alloc, solved, params)?;
    let mut outputs = bases_at(alloc, solved.scope(), params)?;
    outputs.resize(draft.level as usize, Base::Int)?;
    let rel = joined(alloc, Join::And, &draft.says)?;
    Ok(Question { outputs, rel })
}

// What is said of all tuples of all arms.
fn written(alloc: Global, solved: &Solved, params: &[u32]) -> Result<Draft, NoMemory>
    requires { params.now ≡ parameters solved.now.scope.items (rel_tree solved.now.rel) }
    ensures says { IfOk result (λ d. map rel_tree d.says.items ≡ all_say solved.now.scope.items solved.now.outputs.items (rel_tree solved.now.rel)) }
    ensures level { IfOk result (λ d. d.level ≡ length params.now + lets_in
        (turns (traced solved.now.scope.items solved.now.outputs.items (rel_tree solved.now.rel)))) }
{
    let level = to_u32(params.len())?;
    let first = first_forms(alloc, solved.layout(), params)?;
    let mut draft = Draft::new(alloc, first, level);
    draft.cases(alloc, solved)?;
    Ok(draft)
}
