//! Whether the classes of a match's patterns hold every number.
ghost use Rattle.std.specs.Prelude.{ℤ, ◌≡◌, [], ◌∷◌, IfOk};
ghost use Rattle.cf_tree.specs.RelView.{rel_tree};
ghost use Rattle.cf_eval.specs.declared.value.Value.TheVariants as value;
ghost use Rattle.cf_warn.specs.Classes.{AreClasses, MatchesHaveClasses, covered};
ghost use Rattle.cf_warn.specs.declared.coverage.Cover.TheVariants.{Misses};
ghost use Rattle.cf_warn.specs.Covers.{IsCover, IsCovered};

use crate::answer::{Doubt, ExistenceAnswer};
use crate::classes::covered;
use crate::no_outputs::existence;
use cf_choose::{ChooseFault, solve};
use cf_eval::Value;
use cf_match::Class;
use cf_tree::{Base, NoMemory, Rel, without};
use std::alloc::Global;

/// Whether every number is in one of some classes.
#[derive(Clone, Copy, Debug, PartialEq, Eq)]
pub enum Cover {
    /// Every number is in a class.
    All,
    /// No class holds this number.
    Misses(i128),
    /// The question is not decided.
    Undecided(Doubt),
}

/// The classes that `cf_match` tells of each match of a typed program keep the condition of `covers`.
pub fn matches_have_classes()
    ensures { MatchesHaveClasses }
{}

/// Whether every number is in one of the classes: `All` where it is, `Misses` with a number that is in
/// none, or the doubt of the question, which is whether an output of a choose always exists.
///
/// # Errors
/// `NoMemory` where memory ran out.
pub fn covers(alloc: Global, classes: &[Class]) -> Result<Cover, NoMemory>
    requires { AreClasses classes.now }
    ensures { IfOk result (IsCover classes.now) }
{
    let rel = covered(alloc, classes)?;
    let cover = of_question(alloc, classes, &rel);
    without(rel, cover)
}

// What the question tells of the classes.
fn of_question(alloc: Global, classes: &[Class], rel: &Rel) -> Result<Cover, NoMemory>
    requires classes { AreClasses classes.now }
    requires rel { rel_tree rel.now ≡ covered classes.now }
    ensures { IfOk result (IsCover classes.now) }
{
    match solve(alloc, &[Base::Int], &[Base::Int], rel) {
        Ok(solved) => {
            let exists = existence(alloc, &solved);
            drop(solved);
            Ok(answer(classes, exists?))
        }
        Err(ChooseFault::Refused(refusal)) => Ok(Cover::Undecided(Doubt::Refused(refusal))),
        Err(ChooseFault::NoMemory) => Err(NoMemory),
    }
}

// The verdict, where the question answers this.
fn answer(classes: &[Class], exists: ExistenceAnswer) -> Cover
    requires classes { AreClasses classes.now }
    requires exists { IsCovered classes.now exists }
    ensures { IsCover classes.now result }
{
    match exists {
        ExistenceAnswer::Always => Cover::All,
        ExistenceAnswer::Missing(sample) => missed(&sample),
        ExistenceAnswer::Undecided(doubt) => Cover::Undecided(doubt),
    }
}

// That no class holds the one value of a sample of the question, which is a number.
fn missed(sample: &[Value]) -> Cover
    requires { (z : ℤ) × (sample.now ≡ value.Int z ∷ []) }
    ensures { (z : ℤ) × (sample.now ≡ value.Int z ∷ []) × (result ≡ Misses z) }
{
    match &sample[0] {
        Value::Int(z) => Cover::Misses(*z),
        _ => unreachable!(),
    }
}
