//! Solving a question and running it.
ghost use Rattle.std.specs.Prelude.{◌≡◌, [], IfOk, All};
ghost use Rattle.cf_tree.specs.CodeView.{code_tree};
ghost use Rattle.cf_tree.specs.RelView.{rel_tree};
ghost use Rattle.cf_tree.specs.Relation.{IsTyped, IsLinear};
ghost use Rattle.cf_choose.specs.Laws.{IsUnrefused};
ghost use Rattle.cf_choose.specs.Solved.{IsOutput};
ghost use Rattle.cf_warn.specs.Solutions.{question_code};
ghost use Rattle.cf_warn.specs.Answering.{IsAsked};

use crate::answer::Doubt;
use cf_choose::{ChooseFault, Solved, solve};
use cf_eval::{Outcome, Value, run_code};
use cf_tree::{Base, Code, NoMemory, Rel, without};
use std::alloc::Global;

// What a question answers: values of its outputs that solve it, or that none do, or why it is not decided.
#[derive(Drop)]
pub(crate) enum Asked {
    Solution(Vec<Value>),
    NoSolution,
    Undecided(Doubt),
}

// The question, which has no parameters, is solved as any choose and run on no input.
pub(crate) fn ask(alloc: Global, outputs: &[Base], rel: &Rel) -> Result<Asked, NoMemory>
    requires typed { IsTyped outputs.now (rel_tree rel.now) }
    requires linear { IsLinear (rel_tree rel.now) }
    requires outputs { All IsOutput outputs.now }
    ensures { IfOk result (IsAsked outputs.now (rel_tree rel.now)) }
{
    match solve(alloc, &[], outputs, rel) {
        Ok(solved) => {
            let code = question(solved);
            let asked = run(alloc, outputs, rel, &code);
            without(code, asked)
        }
        Err(ChooseFault::Refused(refusal)) => Ok(Asked::Undecided(Doubt::Refused(refusal))),
        Err(ChooseFault::NoMemory) => Err(NoMemory),
    }
}

// The code of a solved question.
fn question(solved: Solved) -> Code
    requires { solved.scope.items ≡ [] }
    ensures code { code_tree result ≡ question_code solved.outputs.items (rel_tree solved.rel) }
    ensures unrefused { IsUnrefused [] solved.outputs.items (rel_tree solved.rel) }
{
    solved.into_code(1)
}

// The run of a question that passes no limit.
#[tactic(auto, using(crate::proofs::VerdictLaws::solution_asked, crate::proofs::VerdictLaws::none_asked))]
fn run(alloc: Global, outputs: &[Base], rel: &Rel, code: &Code) -> Result<Asked, NoMemory>
    requires unrefused { IsUnrefused [] outputs.now (rel_tree rel.now) }
    requires code { code_tree code.now ≡ question_code outputs.now (rel_tree rel.now) }
    ensures { IfOk result (IsAsked outputs.now (rel_tree rel.now)) }
{
    match run_code(alloc, code, &[])? {
        Outcome::Values(values) => Ok(Asked::Solution(values)),
        Outcome::NoSolution(_) => Ok(Asked::NoSolution),
        Outcome::Overflow => Ok(Asked::Undecided(Doubt::Overflow)),
    }
}
