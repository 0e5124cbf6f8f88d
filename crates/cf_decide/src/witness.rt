//! Outputs that are told by another relation: where that always has outputs, and all of them solve the relation of a
//! choose, this always has outputs, too.
ghost use Rattle.std.specs.Prelude.{◌≡◌, ◌++◌, [], true, All, Ok, IfOk};
ghost use Rattle.cf_tree.specs.RelTree.{rel_and, rel_not};
ghost use Rattle.cf_tree.specs.RelView.{rel_tree};
ghost use Rattle.cf_tree.specs.Relation.{IsTyped, IsLinear};
ghost use Rattle.cf_choose.specs.Solved.{IsOutput};
ghost use Rattle.cf_read.specs.Reading.{NeverHolds};
ghost use Rattle.cf_warn.specs.Solutions.{AreAlways};
ghost use Rattle.cf_decide.specs.Answers.{SaysExistence};
ghost use Rattle.cf_decide.specs.Finding.{IsFound};
ghost use Rattle.cf_decide.specs.declared.searching.Found.TheVariants.{Never};

use crate::existence::{by_search, is_always};
use crate::scale::Scale;
use crate::searching::{Found, search, untold};
use cf_choose::{ChooseFault, Solved, solve};
use cf_eval::Value;
use cf_tree::{Base, NoMemory, Rel, without};
use cf_warn::{ExistenceAnswer, is_over};
use std::alloc::Global;

/// Whether it is found that a choose always has outputs, since those that the witness tells solve it.
pub(crate) fn is_witness(alloc: Global, solved: &Solved, witness: &Rel) -> Result<bool, NoMemory>
    ensures { IfOk result (λ b. b ≡ true → AreAlways solved.now.scope.items solved.now.outputs.items (rel_tree solved.now.rel)) }
{
    let mut bases = Vec::from_slice(alloc, solved.scope())?;
    bases.extend_from_slice(solved.outputs())?;
    is_witness_over(alloc, solved, &bases, witness)
}

fn is_witness_over(
    alloc: Global,
    solved: &Solved,
    bases: &[Base],
    witness: &Rel,
) -> Result<bool, NoMemory>
    requires { bases.now ≡ solved.now.scope.items ++ solved.now.outputs.items }
    ensures { IfOk result (λ b. b ≡ true → AreAlways solved.now.scope.items solved.now.outputs.items (rel_tree solved.now.rel)) }
{
    if !is_over(bases, witness) {
        return Ok(false);
    }
    let tells = has_outputs(alloc, solved.scope(), solved.outputs(), witness)?;
    if !tells {
        return Ok(false);
    }
    solves(alloc, bases, witness, solved.relation())
}

// Whether it is found that a relation always has outputs.
fn has_outputs(alloc: Global, scope: &[Base], outputs: &[Base], rel: &Rel) -> Result<bool, NoMemory>
    requires typed { IsTyped (scope.now ++ outputs.now) (rel_tree rel.now) }
    requires linear { IsLinear (rel_tree rel.now) }
    requires outputs { All IsOutput outputs.now }
    ensures { IfOk result (λ b. b ≡ true → AreAlways scope.now outputs.now (rel_tree rel.now)) }
{
    let answer = existence_of(alloc, scope, outputs, rel)?;
    Ok(is_always(&answer))
}

// What a search finds of whether a relation always has outputs.
fn existence_of(
    alloc: Global,
    scope: &[Base],
    outputs: &[Base],
    rel: &Rel,
) -> Result<ExistenceAnswer, NoMemory>
    requires typed { IsTyped (scope.now ++ outputs.now) (rel_tree rel.now) }
    requires linear { IsLinear (rel_tree rel.now) }
    requires outputs { All IsOutput outputs.now }
    ensures { IfOk result (SaysExistence scope.now outputs.now (rel_tree rel.now)) }
{
    match solve(alloc, scope, outputs, rel) {
        Ok(solved) => {
            let answer = by_search(alloc, &solved, Scale::witness());
            drop(solved);
            answer
        }
        Err(ChooseFault::Refused(_)) => Ok(ExistenceAnswer::Undecided(untold())),
        Err(ChooseFault::NoMemory) => Err(NoMemory),
    }
}

/// Values of the parameters for which the witness tells no outputs, if a search finds some. Nothing is promised of them.
pub(crate) fn missed(
    alloc: Global,
    solved: &Solved,
    witness: &Rel,
) -> Result<Option<Vec<Value>>, NoMemory> {
    let mut bases = Vec::from_slice(alloc, solved.scope())?;
    bases.extend_from_slice(solved.outputs())?;
    missed_over(alloc, solved, &bases, witness)
}

fn missed_over(
    alloc: Global,
    solved: &Solved,
    bases: &[Base],
    witness: &Rel,
) -> Result<Option<Vec<Value>>, NoMemory>
    requires { bases.now ≡ solved.now.scope.items ++ solved.now.outputs.items }
{
    if !is_over(bases, witness) {
        return Ok(None);
    }
    match existence_of(alloc, solved.scope(), solved.outputs(), witness)? {
        ExistenceAnswer::Missing(sample) => Ok(Some(sample)),
        ExistenceAnswer::Always | ExistenceAnswer::Undecided(_) => Ok(None),
    }
}

// Whether it is found that the relation holds wherever the witness does.
fn solves(alloc: Global, bases: &[Base], witness: &Rel, rel: &Rel) -> Result<bool, NoMemory>
    requires witness { IsTyped bases.now (rel_tree witness.now) }
    requires witness_linear { IsLinear (rel_tree witness.now) }
    requires rel { IsTyped bases.now (rel_tree rel.now) }
    requires rel_linear { IsLinear (rel_tree rel.now) }
    ensures { IfOk result (λ b. b ≡ true → NeverHolds [] bases.now (rel_and (rel_tree witness.now) (rel_not (rel_tree rel.now)))) }
{
    let question = alone(alloc, witness, rel)?;
    let found = search(alloc, bases, &question, Scale::witness());
    is_never(without(question, found))
}

// That the witness holds, and the relation does not.
fn alone(alloc: Global, witness: &Rel, rel: &Rel) -> Result<Rel, NoMemory>
    ensures { IfOk result (λ r. rel_tree r ≡ rel_and (rel_tree witness.now) (rel_not (rel_tree rel.now))) }
{
    let holds = Box::new(alloc, witness.try_copy(alloc)?)?;
    match failing(alloc, rel) {
        Ok(fails) => Ok(Rel::And(holds, fails)),
        Err(fault) => Err(without(holds, fault)),
    }
}

fn failing(alloc: Global, rel: &Rel) -> Result<Box<Rel>, NoMemory>
    ensures { IfOk result (λ r. rel_tree r.value ≡ rel_not (rel_tree rel.now)) }
{
    let copy = Box::new(alloc, rel.try_copy(alloc)?)?;
    Ok(Box::new(alloc, Rel::Not(copy))?)
}

fn is_never(found: Result<Found, NoMemory>) -> Result<bool, NoMemory>
    ensures { IfOk result (λ b. b ≡ true → found ≡ Ok Never) }
{
    match found {
        Ok(Found::Never) => Ok(true),
        Ok(Found::At(_)) => Ok(false),
        Ok(Found::Nothing) => Ok(false),
        Err(fault) => Err(fault),
    }
}
