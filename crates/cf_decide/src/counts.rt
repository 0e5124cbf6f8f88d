//! A search over the counts of the regions of sets, for a question of more sets than are read.
ghost use Rattle.std.specs.Prelude.{◌≡◌, ◌≤◌, [], length, true, IfOk};
ghost use Rattle.cf_tree.specs.RelView.{rel_tree};
ghost use Rattle.cf_tree.specs.Relation.{IsTyped, IsLinear};
ghost use Rattle.cf_linear.specs.Layout.{layout_of, set_count};
ghost use Rattle.cf_linear.specs.Views.{plain_layout};
ghost use Rattle.cf_counts.specs.Counted.{count_bases, over_counts};
ghost use Rattle.cf_counts.specs.declared.regions.TheConstants.{MOST_COUNTED_SETS};
ghost use Rattle.cf_guide.specs.declared.guide.Outcome.TheVariants.{Closed};
ghost use Rattle.cf_read.specs.Reading.{NeverHolds};
ghost use Rattle.cf_decide.specs.Finding.{IsFound};

use crate::scale::MOST_VARIABLES;
use crate::searching::{Found, of_search};
use cf_choose::{ChooseFault, layout};
use cf_counts::{MOST_COUNTED_SETS, count_bases, over_counts};
use cf_guide::{Limits, Outcome};
use cf_linear::{Layout, MOST_SETS};
use cf_refute::refute;
use cf_tree::{Base, NoMemory, Rel, to_u32, without};
use cf_warn::is_over;
use std::alloc::Global;

// What a search finds of the relation, which is over variables of these bases, if it has more sets than are read, and not
// more than are counted.
pub(crate) fn search_counts(alloc: Global, bases: &[Base], rel: &Rel) -> Result<Found, NoMemory>
    requires typed { IsTyped bases.now (rel_tree rel.now) }
    requires linear { IsLinear (rel_tree rel.now) }
    ensures { IfOk result (IsFound bases.now (rel_tree rel.now)) }
{
    if bases.len() > MOST_VARIABLES {
        return Ok(Found::Nothing);
    }
    let layout = layout(alloc, bases, &[], rel)?;
    if !is_counted(&layout) {
        return Ok(Found::Nothing);
    }
    let outcome = refute_counted(alloc, bases, &layout, rel);
    of_search(alloc, bases, rel, outcome)
}

fn is_counted(layout: &Layout) -> bool
    ensures { result ≡ true → set_count (plain_layout layout.now) ≤ MOST_COUNTED_SETS }
{
    let sets = layout.inputs.len();
    layout.out_sets.is_empty() && sets > MOST_SETS && sets <= MOST_COUNTED_SETS
}

// The outcome of a search for a refutation of the relation over counts.
#[tactic(auto, using(crate::proofs::CountingLaws::counted_outcome))]
fn refute_counted(
    alloc: Global,
    bases: &[Base],
    layout: &Layout,
    rel: &Rel,
) -> Result<Outcome, ChooseFault>
    requires typed { IsTyped bases.now (rel_tree rel.now) }
    requires linear { IsLinear (rel_tree rel.now) }
    requires layout { plain_layout layout.now ≡ layout_of bases.now [] (rel_tree rel.now) }
    requires sets { set_count (plain_layout layout.now) ≤ MOST_COUNTED_SETS }
    ensures { IfOk result (λ o. o ≡ Closed → NeverHolds [] bases.now (rel_tree rel.now)) }
{
    match counted(alloc, bases, layout, rel) {
        Ok(question) => {
            let outcome = refute_behind(alloc, bases, layout, &question);
            without(question, outcome)
        }
        Err(_) => Err(ChooseFault::NoMemory),
    }
}

// The relation over counts, which have levels behind the variables of these bases.
fn counted(alloc: Global, bases: &[Base], layout: &Layout, rel: &Rel) -> Result<Rel, NoMemory>
    requires { set_count (plain_layout layout.now) ≤ MOST_COUNTED_SETS }
    ensures { IfOk result (λ r. rel_tree r ≡ over_counts (plain_layout layout.now) (length bases.now) (rel_tree rel.now)) }
{
    let first = to_u32(bases.len())?;
    over_counts(alloc, layout, first, rel)
}

// The same of a relation over these bases and those of counts.
fn refute_behind(
    alloc: Global,
    bases: &[Base],
    layout: &Layout,
    rel: &Rel,
) -> Result<Outcome, ChooseFault>
    requires { set_count (plain_layout layout.now) ≤ MOST_COUNTED_SETS }
    ensures { IfOk result (λ o. o ≡ Closed → NeverHolds bases.now (count_bases (plain_layout layout.now)) (rel_tree rel.now)) }
{
    match count_bases(alloc, layout) {
        Ok(counts) => refute_typed(alloc, bases, &counts, rel),
        Err(_) => Err(ChooseFault::NoMemory),
    }
}

// The same of a relation that is linear over these bases. One that is not is want of memory; one over counts is.
fn refute_typed(
    alloc: Global,
    scope: &[Base],
    outputs: &[Base],
    rel: &Rel,
) -> Result<Outcome, ChooseFault>
    ensures { IfOk result (λ o. o ≡ Closed → NeverHolds scope.now outputs.now (rel_tree rel.now)) }
{
    let mut bases = match Vec::from_slice(alloc, scope) {
        Ok(bases) => bases,
        Err(_) => return Err(ChooseFault::NoMemory),
    };
    if bases.extend_from_slice(outputs).is_err() || !is_over(&bases, rel) {
        return Err(ChooseFault::NoMemory);
    }
    refute(alloc, scope, outputs, rel, Limits::second())
}
