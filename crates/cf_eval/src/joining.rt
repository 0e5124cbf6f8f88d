// Sets that are joined one after another. What was joined so far stands in runs, each with more than
// twice the elements of the next, so that an element is copied a few times and not once for each set.
ghost use Rattle.std.specs.Prelude.{◌≡◌, ◌++◌, ◌∷◌, [], Some, IfNone, IfOk, IfSome, OnOk};
ghost use Rattle.cf_tree.specs.Meaning.{joined, joined_with};
ghost use Rattle.cf_eval.specs.Choice.{join_of, runs_joined};

use crate::operate::empty;
use cf_set::Set;
use cf_tree::NoMemory;
use std::alloc::Global;

// How sets are joined.
#[derive(Clone, Copy)]
pub enum Join {
    Union,
    Inter,
}

pub fn join_two(alloc: Global, how: Join, s: &Set, t: &Set) -> Result<Set, NoMemory>
    ensures { IfOk result (λ both. both ≡ join_of how s.now t.now) }
{
    match how {
        Join::Union => s.union(alloc, t),
        Join::Inter => s.inter(alloc, t),
    }
}

// One more set behind the runs. It takes up the last ones that are not great beside it.
#[tactic(auto, using(crate::proofs::UnionLemmas::runs_step, crate::proofs::UnionLemmas::runs_more))]
pub fn join_more(alloc: Global, how: Join, runs: &mut Vec<Set>, more: Set) -> Result<(), NoMemory>
    ensures { OnOk result (runs_joined how runs.new.items ≡ Some (joined_with (join_of how) (runs_joined how runs.old.items) more)) }
{
    let mut last = more;
    while let Some(before) = pop_near(runs, &last) {
        last = join_two(alloc, how, &before, &last)?;
    }
    runs.push(last)?;
    Ok(())
}

// The last run, unless it has more than twice the elements of the set.
fn pop_near(runs: &mut Vec<Set>, last: &Set) -> Option<Set>
    ensures popped { IfSome result (λ before. runs.old.items ≡ runs.new.items ++ (before ∷ [])) }
    ensures kept { IfNone result (runs.new.items ≡ runs.old.items) }
{
    let is_near = match runs.last() {
        Some(before) => before.card() / 2 <= last.card(),
        None => false,
    };
    if is_near { runs.pop() } else { None }
}

// All the runs as one set, and the empty set where there are none.
#[tactic(auto, using(crate::proofs::UnionLemmas::runs_step, crate::proofs::UnionLemmas::runs_end, crate::proofs::UnionLemmas::runs_none))]
pub fn join_runs(alloc: Global, how: Join, runs: Vec<Set>) -> Result<Set, NoMemory>
    ensures { IfOk result (λ s. s ≡ joined (runs_joined how runs.items)) }
{
    let mut runs = runs;
    let Some(mut last) = runs.pop() else {
        return empty(alloc);
    };
    while let Some(before) = runs.pop() {
        last = join_two(alloc, how, &before, &last)?;
    }
    Ok(last)
}
