//! Whether a relation never holds together with a part of it.
ghost use Rattle.std.specs.Prelude.{◌≡◌, true, IfOk};
ghost use Rattle.cf_tree.specs.RelTree.{rel_and};
ghost use Rattle.cf_tree.specs.RelView.{rel_tree};
ghost use Rattle.cf_read.specs.Reading.{NeverHolds};

use crate::never::never_holds_within;
use cf_guide::Limits;
use cf_tree::{Base, NoMemory, Rel, without};
use cf_warn::is_over;
use std::alloc::Global;

/// Of more branches of one choose nothing is asked.
pub const MOST_BRANCHES: usize = 64;

/// Whether a search refutes that a relation holds together with a branch in it, one of so many that share their limits. The
/// variables have these bases by level, those of `outputs` behind those of `scope`. Yes only where no values satisfy both.
///
/// # Errors
/// `NoMemory` where memory ran out.
pub fn never_holds_with(
    alloc: Global,
    scope: &[Base],
    outputs: &[Base],
    rel: &Rel,
    branch: &Rel,
    branches: usize,
) -> Result<bool, NoMemory>
    ensures { IfOk result (λ b. b ≡ true → NeverHolds scope.now outputs.now (rel_and (rel_tree rel.now) (rel_tree branch.now))) }
{
    if branches > MOST_BRANCHES {
        return Ok(false);
    }
    let question = both(alloc, rel, branch)?;
    let never = is_refuted(alloc, scope, outputs, &question, share(branches));
    without(question, never)
}

fn both(alloc: Global, rel: &Rel, branch: &Rel) -> Result<Rel, NoMemory>
    ensures { IfOk result (λ r. rel_tree r ≡ rel_and (rel_tree rel.now) (rel_tree branch.now)) }
{
    let first = Box::new(alloc, rel.try_copy(alloc)?)?;
    with_second(alloc, first, branch)
}

fn with_second(alloc: Global, first: Box<Rel>, branch: &Rel) -> Result<Rel, NoMemory>
    ensures { IfOk result (λ r. rel_tree r ≡ rel_and (rel_tree first.value) (rel_tree branch.now)) }
{
    match branch.try_copy(alloc) {
        Ok(second) => Ok(Rel::And(first, Box::new(alloc, second)?)),
        Err(fault) => Err(without(first, fault)),
    }
}

fn is_refuted(
    alloc: Global,
    scope: &[Base],
    outputs: &[Base],
    rel: &Rel,
    limits: Limits,
) -> Result<bool, NoMemory>
    ensures { IfOk result (λ b. b ≡ true → NeverHolds scope.now outputs.now (rel_tree rel.now)) }
{
    let mut bases = Vec::from_slice(alloc, scope)?;
    bases.extend_from_slice(outputs)?;
    if !is_over(&bases, rel) {
        return Ok(false);
    }
    never_holds_within(alloc, scope, outputs, rel, limits)
}

// What one of so many branches may take.
fn share(branches: usize) -> Limits {
    let all = Limits::branches();
    if branches == 0 {
        return all;
    }
    let count = branches as u64;
    Limits {
        splits: all.splits / count,
        pivots: all.pivots / count,
        steps: all.steps / count,
    }
}
